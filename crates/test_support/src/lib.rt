//! What the tests of several crates are made of: the runner of rows, accesses, words and numbers.
#![tactic(auto)]

mod accesses;
mod example;
mod numbers;
mod rows;
mod streams;
mod words;

pub use accesses::sorted;
pub use example::{FIRST_ACCESSES, FIRST_ITEM, FIRST_QUERY, FIRST_TEXT};
pub use numbers::{Numbers, shuffled};
pub use rows::{wrong_rows, wrong_texts};
use std::alloc::{AllocError, AllocFailed};
pub use streams::Counting;
pub use topk_theory::Access;
pub use words::words_of;

/// Why a value wasn't made. Nothing is left out of a value that was made.
#[derive(Clone, Copy, Debug, PartialEq, Eq)]
pub enum Unmade {
    /// There is more than the value may hold.
    TooMany,
    /// No memory was left.
    Memory,
}

impl From<AllocError> for Unmade {
    fn from(_: AllocError) -> Unmade {
        Unmade::Memory
    }
}

impl<T: Drop> From<AllocFailed<T>> for Unmade {
    fn from(_: AllocFailed<T>) -> Unmade {
        Unmade::Memory
    }
}

impl From<tk_io::Memory> for Unmade {
    fn from(_: tk_io::Memory) -> Unmade {
        Unmade::Memory
    }
}
