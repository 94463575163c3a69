//! The combined algorithm of Fagin, Lotem and Naor, as a machine that is fed one access at a time.
//!
//! It reads rows as the algorithm without random access does, and once in so many depths, by the ratio of the costs, it asks
//! for the unknown grades of one object: of the seen objects with an unknown grade the one of greatest high, if it is viable.
//! Its bounds are renewed late. Objects whose highs are the cap of a list, as by `min` all that reach its bottom, fall together:
//! they are tied, and only the smallest of them is looked at. Only `make` takes memory.
#![tactic(auto)]

mod answering;
mod ca;
mod choosing;
mod following;
mod foreseen;
mod kept_high;
mod late_seen;
mod leading;
mod open_highs;
mod stage;
mod ties;
mod tying;

pub use ca::Ca;
pub use machine_base::{CoreFault, Memory, Need};
