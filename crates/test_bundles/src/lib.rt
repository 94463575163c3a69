//! Tests of the commands `one` and `make`, and of made queries.
//!
//! They have each fault of the streams in turn, and answers over tables that look random, against the aggregates of all objects and the certificates
//! of the plain program.
#![tactic(auto)]

#[cfg(test)]
mod against_plain;
#[cfg(test)]
mod aggregates;
#[cfg(test)]
mod brute;
#[cfg(test)]
mod bundles;
#[cfg(test)]
mod drives;
#[cfg(test)]
mod faults;
#[cfg(test)]
mod made_queries;
#[cfg(test)]
mod plain;
#[cfg(test)]
mod random_tables;
#[cfg(test)]
mod table_answers;
#[cfg(test)]
mod texts;
