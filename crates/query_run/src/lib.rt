//! One query over the sources of a pool: it looks for what its machine needs, waits where that isn't there yet, and ends.
//!
//! It ends with the one answer of the tables that agree with what it read, or with why it is refused.
//!
//! In a turn a query looks once: its machine is fed with what is there, a fault refuses it, and else it waits. Whatever its turns were, its
//! accesses are drawn from the logs of its sources, and what it ends with is right.
#![tactic(auto)]

mod ended;
mod run;
mod running_query;

pub use access_log::Memory;
pub use ended::{Ended, Endings, Refusal};
pub use run::{run_query, run_query_by};
pub use running_query::{RunningQuery, let_go, list_needed, turn};
