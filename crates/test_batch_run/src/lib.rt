//! Tests of batches, and of many made queries over a made table, with workers and fetchers that really run.
//!
//! Their rows were worked out by hand, over lists that are a table and over sources whose rows, grades or calls are at fault.
//!
//! Some sources have calls that wait until calls of another source were made, which shows that the queries and the fetchers
//! run at the same time. The settings change nothing.
#![tactic(auto)]

#[cfg(test)]
mod ahead;
#[cfg(test)]
mod batch_runs;
#[cfg(test)]
mod beside;
#[cfg(test)]
mod cases;
#[cfg(test)]
mod far;
#[cfg(test)]
mod faults;
#[cfg(test)]
mod gated_runs;
#[cfg(test)]
mod grades;
#[cfg(test)]
mod rows;
#[cfg(test)]
mod runs;
#[cfg(test)]
mod shortage;
#[cfg(test)]
mod tables;
#[cfg(test)]
mod waiting;
#[cfg(test)]
mod writing;
