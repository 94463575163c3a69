//! Workers over the sources of a pool, each with a pass to the slot table, and a fetcher beside them for each source.
//!
//! What a query needs of a source and no other thread fetches its worker fetches itself, so that no query needs another thread; the
//! fetchers read ahead. What a worker does is its caller's: `run_beside` takes it as a closure.
#![tactic(auto)]

mod query;
mod sides;

pub use query::run_and_fetch;
pub use sides::{WorkerHandles, close_sides, open_sides, run_beside};
