//! Tests of the command `node` over a port and a shelf in memory: rows that were worked out by hand, and each fault in turn.
#![tactic(auto)]

#[cfg(test)]
mod cases;
#[cfg(test)]
mod faults;
#[cfg(test)]
mod links;
#[cfg(test)]
mod read_back;
#[cfg(test)]
mod replies;

#[cfg(test)]
use std::process::Abort;

/// Every node of a table goes as it says: there is no first one that doesn't.
#[cfg(test)]
fn none_is_wrong(rt: &impl Abort, first_wrong: Option<usize>) {
    assert_eq!(rt; first_wrong, None);
}
