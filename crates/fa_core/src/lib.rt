//! Fagin's algorithm, as a machine that is fed one access at a time.
//!
//! It reads the lists in parallel until, after a whole row, at least k objects were given by every list, and then asks for
//! the unknown grades of all objects that it has seen, in the order of first sight. Only `make` takes memory.
#![tactic(auto)]

mod answering;
mod fa;
mod following;
mod stage;

pub use fa::Fa;
pub use machine_base::{CoreFault, Memory, Need};
