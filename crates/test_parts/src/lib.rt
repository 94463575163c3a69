//! Tests of parts that stand alone: the indexed heap and the board, row by row, and the locks and the tickets on threads that really run.
#![tactic(auto)]

#[cfg(test)]
mod board;
#[cfg(test)]
mod counters;
#[cfg(test)]
mod draws;
#[cfg(test)]
mod drives;
#[cfg(test)]
mod heap;
mod journal;
#[cfg(test)]
mod journals;
#[cfg(test)]
mod readers;
#[cfg(test)]
mod runs;
#[cfg(test)]
mod turns;

pub use journal::{Journal, Reader};
