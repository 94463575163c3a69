//! Tests of a pool, and of one query over it.
//!
//! Over a pool of one source there are looks through two passes and the turns of its fetcher, on one thread; and there are a fetcher and a reader
//! on threads of their own that really run. A query runs over a pool of two sources, beside a fetcher of each on such a thread.
#![tactic(auto)]

#[cfg(test)]
mod beside;
#[cfg(test)]
mod fetched;
#[cfg(test)]
mod queries;
#[cfg(test)]
mod query_cases;
#[cfg(test)]
mod query_sides;
#[cfg(test)]
mod remembered;
#[cfg(test)]
mod shared;
#[cfg(test)]
mod sides;
#[cfg(test)]
mod slow;
#[cfg(test)]
mod windows;
