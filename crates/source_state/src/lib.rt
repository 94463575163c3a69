//! The state of one source, which all queries that read it share: a log of its rows, of the grades that were asked for, and of its faults.
//!
//! Events only add to the log, so what was read of it stays. It is kept as notes of where the row or the ask of each entry stands. One table has
//! what is kept of each object, and the grades that are beyond the rows stand in a heap. All room is taken when a state is opened: from then on no
//! event takes memory, and each costs at most the logarithm of the asks, but for a row that a grade is above, which looks for the first such grade
//! among them.
#![tactic(auto)]

mod ask;
mod entry;
mod event;
mod laws;
mod look;
mod objects;
mod plan;
mod spots;
mod state;

pub use ask::Ask;
pub use entry::{Asked, LogEntry, Settling, SourceFault};
pub use event::{Applied, Event};
pub use laws::{
    each_history_is_told, each_log_is_told, full_counts_stand_still, what_is_drawn_is_consistent,
};
pub use look::{Look, LookFault, Waiting, look_at};
pub use objects::Objects;
pub use plan::{Plan, reach};
pub use spots::{Request, Spot};
pub use state::SourceState;
pub use topk_base::Memory;
pub use turn_lock::Tally;
