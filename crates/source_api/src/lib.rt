//! Ranked lists behind calls that may fail: sources, and the shelves that they are taken from.
#![tactic(auto)]

mod counts;
mod ledger;
mod rows;
mod shelf;
mod source;

pub use counts::Counts;
pub use ledger::{Ledger, PlaceCounts};
pub use rows::{keep_first, part_of};
pub use shelf::Shelf;
pub use source::{FailKind, Source, Trouble};
pub use topk_base::Memory;
