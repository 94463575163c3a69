//! Tests of the words of a command line, and of query lines over catalogs.
//!
//! They have each refusal of admission in its order, rows over sources in memory that were worked out by hand, each fault in turn, and made queries over
//! made tables, by the list files that `make` writes, which come to what `bulk` comes to.
#![tactic(auto)]

#[cfg(test)]
mod answers;
#[cfg(test)]
mod calls;
#[cfg(test)]
mod cases;
#[cfg(test)]
mod catalogs;
#[cfg(test)]
mod drives;
#[cfg(test)]
mod fault_cases;
#[cfg(test)]
mod faults;
#[cfg(test)]
mod figures;
#[cfg(test)]
mod made_runs;
#[cfg(test)]
mod outcomes;
#[cfg(test)]
mod refusals;
#[cfg(test)]
mod restricted;
#[cfg(test)]
mod rows;
#[cfg(test)]
mod runs;
#[cfg(test)]
mod shelves;
#[cfg(test)]
mod tests;
#[cfg(test)]
mod told_cases;
#[cfg(test)]
mod told_drives;
#[cfg(test)]
mod words;

#[cfg(test)]
use std::process::Abort;

/// Every run of a table goes as it says: there is no first one that doesn't.
#[cfg(test)]
fn none_is_wrong(rt: &impl Abort, first_wrong: Option<usize>) {
    assert_eq!(rt; first_wrong, None);
}
