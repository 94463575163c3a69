//! The records of a CSV text, one after another, by the grammar of the crate `csv`.
#![tactic(auto)]

mod read;

pub use read::{TakesRecords, read_records};
pub use topk_base::Memory;
