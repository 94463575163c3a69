//! A query server at a port: links are accepted on one side, which puts them into a queue, and workers serve them, a connection each.
//!
//! A connection is one request and one reply (`server_conn`). Each worker serves through a pass of its own to one pool, and fetches what its
//! queries need, while one fetcher a source reads ahead. The server works in generations: once a query was refused since its source moved to another
//! version, no connection begins until those that were begun have ended, the pool is taken down, each source was asked for its size again, and
//! a new pool is there. So does a generation end that has lasted for some time, where a list isn't open or states versions, when a link comes.
#![tactic(auto)]

mod accepting;
mod counting;
mod generation;
mod lifetime;
mod queue;
mod reopening;
mod server;
mod sides;
mod waiting;

pub use accepting::{Accepted, accept_all};
pub use lifetime::{MAX_PAUSE, MIN_PAUSE};
pub use queue::LinkQueue;
pub use server::{Served, serve_all};
pub use server_conn::{OpenedCatalog, OpenedEntry};
pub use topk_base::Memory;
