//! A factor of the best.

/// A factor `p / q`: no aggregate outside an answer is more than it times one inside. Where `q` is 0 it says nothing.
#[derive(Clone, Copy, Debug, PartialEq, Eq)]
pub struct Guarantee {
    pub p: u64,
    pub q: u64,
}
