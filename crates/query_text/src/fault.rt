//! Why a line is refused.

/// Why a line isn't read as a query. The refusals come in this order, but that of `Number` and
/// `TooManyLists` the one with the lesser place is given, and that `Memory` may come at any point.
#[derive(Clone, Copy, PartialEq, Eq)]
pub enum QueryFault {
    /// The line has more bytes than `limit`.
    LongLine { limit: u32 },
    /// The line isn't of the shape of query text. Its first `at` bytes are the longest front of it
    /// that begins some text of the shape.
    Syntax { at: u32 },
    /// The number whose first byte is at this place, from 0, is the first one out of its range.
    Number { at: u32 },
    /// The ninth list is named at this place, from 0.
    TooManyLists { at: u32 },
    /// The factor p / q of the algorithm is below 1: p is less than q.
    BadTheta { p: u32, q: u32 },
    /// The expression has this many nodes, which are more than 64. The last `u64` also stands for
    /// all counts above it.
    TooManyNodes { nodes: u64 },
    /// The expression nests this deep, which is deeper than 8. The last `u64` also stands for all
    /// depths above it.
    TooDeep { depth: u64 },
    /// The value of this node passes 2^63 - 1 where each grade is 1,000,000. Nodes are numbered
    /// from 1 in the order in which their texts end.
    TooBig { node: u32 },
    /// No memory was left.
    Memory,
}
