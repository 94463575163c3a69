//! Tests of texts: queries, certificates, bundles and catalogs as they are read and written.
#![tactic(auto)]

#[cfg(test)]
mod answers;
#[cfg(test)]
mod bounds;
#[cfg(test)]
mod bundles;
#[cfg(test)]
mod catalogs;
#[cfg(test)]
mod grades;
#[cfg(test)]
mod nodes;
#[cfg(test)]
mod parts;
#[cfg(test)]
mod queries;
#[cfg(test)]
mod reading;
#[cfg(test)]
mod refusals;
#[cfg(test)]
mod small_types;
#[cfg(test)]
mod weights;

#[cfg(test)]
use cert_text::Outcome;
#[cfg(test)]
use std::process::Abort;

/// What a test asks holds.
#[cfg(test)]
fn holds(rt: &impl Abort, is_so: bool) {
    assert!(rt; is_so);
}

/// Lets an outcome go: it falls out of scope, and is written out once.
#[cfg(test)]
fn let_go(_outcome: Outcome) {}
