//! The threshold algorithm over lists of which some can't be read in order, as a machine that is fed one access at a time.
//!
//! It reads the lists with sorted access in parallel, and after each row asks for the unknown grades of the objects that the row
//! gave first: every grade of a list without sorted access comes so. It stops once k of them have an aggregate of at least the
//! threshold, in which such a list counts with the greatest grade, or all objects are seen. Only `make` and `answer` take memory.
#![tactic(auto)]

mod following;
mod scoring;
mod sorted_lists;
mod stage;
mod taz;

pub use machine_base::{CoreFault, Memory, Need};
pub use taz::Taz;
