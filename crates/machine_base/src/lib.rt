//! What the machines of all algorithms share: their query, their transcript, and the first k of what they have seen.
//!
//! What contracts see of a machine stands in `specs/Machine.antt`. The test of room at a row, why a query is refused there, which unknown grade of
//! objects is asked next (`ask_from`) and what a query ends with are the same for all.
//!
//! A `Board` keeps the first k of the objects seen so far, by low, high and number, as they come.
#![tactic(auto)]

mod answer;
mod asking;
mod base;
mod board;
mod core_fault;
mod object_list;
mod order;
mod rank;
mod ranking;

pub use access_log::Memory;
pub use answer::Answer;
pub use asking::{Ask, ask_from, first_unknown, next_unknown};
pub use base::Base;
pub use board::Board;
pub use core_fault::CoreFault;
pub use object_list::ObjectList;
pub use order::put_in_order;
pub use ranked_list::{Item, Items, Need};
