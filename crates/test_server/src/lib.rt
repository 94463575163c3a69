//! Tests of the query server by its public calls, over links and sources in memory.
//!
//! They have requests with their replies, to the byte; which links are taken; connections at the same time; generations.
#![tactic(auto)]

#[cfg(test)]
mod answers;
#[cfg(test)]
mod asked;
#[cfg(test)]
mod desk;
#[cfg(test)]
mod generations;
#[cfg(test)]
mod hall;
#[cfg(test)]
mod heads;
#[cfg(test)]
mod links;
#[cfg(test)]
mod ports;
#[cfg(test)]
mod server_visits;
#[cfg(test)]
mod together;
#[cfg(test)]
mod waiters;

#[cfg(test)]
use std::process::Abort;

/// Every row of a table is as it says: the number of the first one that isn't is none.
#[cfg(test)]
fn none_is_wrong(rt: &impl Abort, first_wrong: Option<usize>) {
    assert_eq!(rt; first_wrong, None);
}

/// What a test asks holds.
#[cfg(test)]
fn holds(rt: &impl Abort, is_so: bool) {
    assert!(rt; is_so);
}

/// What a test asks holds. None is a test without memory.
#[cfg(test)]
fn holds_with_memory(rt: &impl Abort, is_so: Option<bool>) {
    assert_eq!(rt; is_so, Some(true));
}
