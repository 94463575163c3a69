//! What accesses cost.

/// The cost of one sorted access and of one random access.
#[derive(Clone, Copy, PartialEq, Eq)]
pub struct Costs {
    pub sorted: u32,
    pub random: u32,
}
