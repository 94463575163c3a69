//! A lock that remembers: who takes a turn learns that the log of the value has only grown since the last turn.
#![tactic(auto)]

mod facts;
mod known;
mod laws;
mod lock;
mod logged;
mod notify;
mod pass;
mod rule;
mod seat;
mod view;

pub use facts::{Facts, Tally};
pub use known::{Known, Sight};
pub use laws::{
    a_turn_adds_its_asks, a_turn_never_lowers_high, parts_add_up, the_longer_list_is_kept,
};
pub use lock::TurnLock;
pub use logged::Logged;
pub use notify::Notify;
pub use pass::Pass;
