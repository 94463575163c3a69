//! Fetching from a source what queries want of it: rows no further than is wanted or to be read ahead, and the grades that were asked for.
//!
//! The source is called outside the turns of its lock.
#![tactic(auto)]

mod fetch;
mod laws;
mod serving;
mod slot;
mod slot_table;
mod stop;
mod turned;

pub use fetch::fetch_turn;
pub use laws::{
    told_lists_neither_repeat_nor_clash, turns_tell_the_list, what_a_turn_gave_tells_its_plan,
    what_is_fetched_is_called_for,
};
pub use serving::{Began, serve_turn};
pub use slot::Slot;
pub use slot_table::{SlotTable, serve_loop, serve_or_wait};
pub use source_state::reach;
pub use stop::Stop;
pub use turned::{Fetched, Turned};
