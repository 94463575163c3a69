//! Ranked lists in memory behind calls that fail on demand, for the tests of several crates.
//!
//! There are sources of rows, the shelf of texts and sources, calls with what they are to answer, and what a request for them is replied to.
#![tactic(auto)]

mod edition;
mod held;
mod mem_shelf;
mod source_in_memory;
mod steps;
pub mod visits;

pub use edition::Later;
pub use held::{Held, Kind, Move, shelf_of, source_of};
pub use mem_shelf::MemShelf;
pub use source_in_memory::MemSource;
pub use steps::{Step, first_wrong};
