//! Objects with bounds on their aggregates.

use topk_base::Seq32;

/// An object with a lower and an upper bound of its aggregate.
#[derive(Clone, Copy, Debug, PartialEq, Eq)]
pub struct Item {
    pub object: u32,
    pub low: u64,
    pub high: u64,
}

/// Items in order.
pub type Items = Seq32<Item>;
