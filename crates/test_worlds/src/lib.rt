//! Worlds, and tests of them: sources and the queries that share them, over any list of steps.
//!
//! A step is a page, a grade, a miss, a fail or a move of one source, or a turn of one query. Whatever the steps are, and in whatever order they
//! come, each query that is answered has the one answer of the tables that agree with what it read. The tests have rows that were worked out by
//! hand.
#![tactic(auto)]

#[cfg(test)]
mod acts;
#[cfg(test)]
mod cases;
#[cfg(test)]
mod ends;
#[cfg(test)]
mod fails;
#[cfg(test)]
mod faults;
#[cfg(test)]
mod grades;
mod lawful;
mod laws;
#[cfg(test)]
mod moves;
#[cfg(test)]
mod orders;
#[cfg(test)]
mod outcomes;
mod step;
#[cfg(test)]
mod tables;
#[cfg(test)]
mod three;
#[cfg(test)]
mod trials;
mod world;

#[cfg(test)]
use std::process::Abort;

/// Every case comes to what is wanted: there is no first one that doesn't.
#[cfg(test)]
fn none_is_wrong(rt: &impl Abort, first_wrong: Option<usize>) {
    assert_eq!(rt; first_wrong, None);
}
