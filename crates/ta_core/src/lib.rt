//! The threshold algorithm of Fagin, Lotem and Naor, exact, within a factor and stopped early, as a machine that is fed one access at a time.
//!
//! `Ta` is one machine for the three, which read alike and differ in when they halt (`Halting`). How far it has come in the row that it reads is the row's
//! objects and grades so far, the new objects that wait for grades, what is needed next, and what follows an access that is told. Within a factor and
//! stopped early it answers the first k of the objects that it has seen, and its transcript shows within which factor of the best these are.
#![tactic(auto)]

mod following;
mod halting;
mod progress;
mod ta;

pub use halting::Halting;
pub use machine_base::{CoreFault, Memory, Need};
pub use ta::Ta;
