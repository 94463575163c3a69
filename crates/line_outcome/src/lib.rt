//! The outcomes of query lines: of one that is refused before it runs, and of one whose query ended.
#![tactic(auto)]

mod ending;
mod outcome;

pub use ending::{line_ended, line_refused};
