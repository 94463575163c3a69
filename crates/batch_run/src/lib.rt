//! All queries of a batch at the same time: the next free worker takes the next query, and all read through one pool what is fetched of each source.
//!
//! Each query ends as it would alone on the tables that agree with what it read. The worker pool of a batch is one pool of the sources with a feeder
//! each, tickets for the queries, and workers, each with a pass of either. It is made, runs the queries, and comes apart: the workers'
//! passes are joined to one, so that the pool can be closed, and how the queries ended is put at their places. Each worker and each
//! fetcher has a thread of its own; a source and its feeder stand in one slot meanwhile.
#![tactic(auto)]

mod finish;
mod joining;
mod lending;
mod run;
mod sides;
mod work;
mod worker_pool;

pub use batch_result::{Batch, Settings, Use};
pub use lending::{lend, take_back};
pub use query_run::{Ended, Memory};
pub use run::run_all;
pub use work::Worker;
pub use worker_pool::WorkerPool;
