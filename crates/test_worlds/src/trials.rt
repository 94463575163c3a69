//! Worlds of which every list of lawful steps is tried.

use super::acts::{Act, Sources};
use super::three::THREE;
use source_state::{LookFault, SourceFault};
use test_query_support::{Asked, Expected, FIRST, FIRST_ENDS, Figures, SORTED, SORTED_ENDS};

/// Sources with how many objects they state, queries, the steps that are tried, how many of them an order has, eight at most, how many
/// orders there are, and how the queries end whatever their order is.
#[derive(Clone, Copy)]
pub struct Trial {
    pub sources: Sources,
    pub counts: &'static [u32],
    pub asked: &'static [Asked],
    pub acts: &'static [Act],
    pub steps: usize,
    pub orders: u32,
    pub ends: &'static [Expected],
}

/// All of them.
pub static TRIALS: [Trial; 5] = [PAGES, SHARED, FAILS, OUT_OF_ORDER, MISSING];

/// Pages of one, two and three rows of either source, and the grades that the query asks for, before and after the rows that hold
/// their objects.
const PAGES: Trial = Trial {
    sources: THREE,
    counts: &[3, 3],
    asked: &[FIRST],
    acts: &[
        Act::Turn(0),
        Act::Page(0, 1),
        Act::Page(0, 2),
        Act::Page(0, 3),
        Act::Page(1, 1),
        Act::Page(1, 2),
        Act::Page(1, 3),
        Act::Grade(1, 1),
        Act::Grade(0, 2),
        Act::Grade(0, 3),
    ],
    steps: 7,
    orders: 6_889,
    ends: &[FIRST_ENDS],
};

/// Two queries that share both sources.
const SHARED: Trial = Trial {
    sources: THREE,
    counts: &[3, 3],
    asked: &[FIRST, SORTED],
    acts: &[
        Act::Turn(0),
        Act::Turn(1),
        Act::Page(0, 1),
        Act::Page(1, 1),
        Act::Grade(1, 1),
        Act::Grade(0, 2),
        Act::Grade(0, 3),
    ],
    steps: 6,
    orders: 3_791,
    ends: &[FIRST_ENDS, SORTED_ENDS],
};

/// Calls that fail, also between a want and its page.
const FAILS: Trial = Trial {
    sources: THREE,
    counts: &[3, 3],
    asked: &[FIRST],
    acts: &[
        Act::Turn(0),
        Act::Fail(0),
        Act::Fail(1),
        Act::Page(0, 1),
        Act::Page(1, 1),
        Act::Grade(1, 1),
        Act::Grade(0, 2),
        Act::Grade(0, 3),
    ],
    steps: 5,
    orders: 3_065,
    ends: &[FIRST_ENDS],
};

/// A row out of order, which one of two queries needs.
const OUT_OF_ORDER: Trial = Trial {
    sources: Sources {
        lists: &[&[(1, 500), (2, 600)], &[(1, 400), (2, 300)]],
        grades: &[],
        page: 1,
        fails: None,
    },
    counts: &[2, 2],
    asked: &[FIRST, ("top 2 by sum(A,B) using ta", &[0, 1])],
    acts: &[
        Act::Turn(0),
        Act::Turn(1),
        Act::Page(0, 1),
        Act::Page(0, 2),
        Act::Page(1, 1),
        Act::Page(1, 2),
    ],
    steps: 6,
    orders: 5_350,
    ends: &[
        Expected::Answered(
            &[(1, 900, 900)],
            Figures {
                depth: 1,
                sorted: 2,
                random: 0,
                cost: 2,
            },
        ),
        Expected::Look(
            0,
            LookFault::Source(SourceFault::OutOfOrder {
                place: 2,
                before: 500,
                after: 600,
            }),
        ),
    ],
};

/// An object that the other list hasn't.
const MISSING: Trial = Trial {
    sources: Sources {
        lists: &[&[(1, 9), (2, 8)], &[(3, 7), (1, 6)]],
        grades: &[],
        page: 1,
        fails: None,
    },
    counts: &[2, 2],
    asked: &[FIRST],
    acts: &[
        Act::Turn(0),
        Act::Page(0, 1),
        Act::Page(0, 2),
        Act::Page(1, 1),
        Act::Page(1, 2),
        Act::Grade(1, 1),
        Act::Grade(0, 3),
    ],
    steps: 8,
    orders: 1_682,
    ends: &[Expected::Look(0, LookFault::Missing { object: 3 })],
};
