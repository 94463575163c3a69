//! Why a tree is no expression.

/// Why a tree is refused.
#[derive(Clone, Copy, Debug, PartialEq, Eq)]
pub enum ExprFault {
    /// It has this many nodes, which are more than 64. The last `u64` also stands for all counts above it.
    TooManyNodes { nodes: u64 },
    /// It nests this deep, which is deeper than 8. The last `u64` also stands for all depths above it.
    TooDeep { depth: u64 },
    /// The value of this node passes 2^63 - 1 where each grade is 1,000,000. Nodes are numbered from 1 in the order in which their texts end.
    TooBig { node: u32 },
    /// No memory was left.
    Memory,
}
