//! The algorithm without random access of Fagin, Lotem and Naor, as a machine that is fed one row at a time.
//!
//! It answers from sorted access alone, with true bounds in place of exact aggregates, which are renewed late: `LateBounds` keeps the k seen objects with
//! the greatest lows, and the candidates that may stand against the stop. The laws say, over whole tables and transcripts and with no code, what has to be
//! kept of the seen objects so that the stop is decided exactly and the answer is read at the end.
#![tactic(auto)]

mod ending;
mod late;
mod laws;
mod nra;
mod place;
mod walk;

pub use late::LateBounds;
pub use laws::{
    a_transcript_shows_that_it_is_quiet, a_walk_without_candidates_ends_within,
    a_witness_stands_against_the_stop, first_are_those_above_and_the_first_tied,
    renewed_bounds_close_in, stops_where_the_others_are_within, what_is_given_up_stays_given_up,
};
pub use machine_base::{CoreFault, Memory, Need};
pub use nra::Nra;
