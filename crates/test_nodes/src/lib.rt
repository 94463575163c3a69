//! Tests of what a list says over HTTP: its JSON bodies, a source that asks for them, and a node that serves them.
//!
//! The source asks over dials in memory, and the node replies over links in memory, to the byte.
#![tactic(auto)]

#[cfg(test)]
mod bodies;
#[cfg(test)]
mod cut_short;
#[cfg(test)]
mod grades;
#[cfg(test)]
mod http_versions;
#[cfg(test)]
mod link_faults;
#[cfg(test)]
mod node_answers;
#[cfg(test)]
mod node_faults;
#[cfg(test)]
mod node_heads;
#[cfg(test)]
mod node_queries;
#[cfg(test)]
mod node_visits;
#[cfg(test)]
mod pages;
#[cfg(test)]
mod sessions;
#[cfg(test)]
mod sizes;
#[cfg(test)]
mod stepping;

#[cfg(test)]
use std::process::Abort;

/// Every row of a table is as it says: the number of the first one that isn't is none.
#[cfg(test)]
fn none_is_wrong(rt: &impl Abort, first_wrong: Option<usize>) {
    assert_eq!(rt; first_wrong, None);
}

/// What a test asks holds.
#[cfg(test)]
fn holds(rt: &impl Abort, is_so: bool) {
    assert!(rt; is_so);
}
