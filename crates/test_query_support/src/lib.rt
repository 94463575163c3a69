//! Queries and pools for the tests of several crates.
//!
//! Queries stand as plain data, made ready from their texts, with how they are to end. Pools are of one source, with looks through two passes and
//! the turns of its fetcher on one thread, and of two sources.
#![tactic(auto)]

mod beside;
mod desk;
mod outcomes;
mod pair;
mod readies;
mod three;

pub use beside::{fetch_both_till_set, fetch_till_set};
pub use desk::{Desk, Step, first_wrong, only};
pub use outcomes::{Asked, Expected, Figures, has_ended_so, is_ended_so, let_endings_go};
pub use pair::Pair;
pub use readies::{are_small, let_go, readies_beside, readies_of};
pub use three::{
    EARLY, EARLY_ENDS, FIRST, FIRST_ENDS, NEAR, NEAR_ENDS, RESTRICTED, RESTRICTED_ENDS, SORTED,
    SORTED_ENDS,
};
