//! What made queries come to.

use super::figures::Figures;
use super::runs::{Made, figures_over};

const SMALL: Made = Made {
    start: 7,
    count: 100,
    lists: 3,
    queries: 6,
};

const SMALL_FIGURES: Figures = Figures {
    answered: 6,
    depth: 164,
    sorted: 492,
    random: 196,
    values: 43899669,
};

const LARGE: Made = Made {
    start: 7,
    count: 2000,
    lists: 4,
    queries: 40,
};

const LARGE_FIGURES: Figures = Figures {
    answered: 40,
    depth: 13653,
    sorted: 54612,
    random: 32548,
    values: 800007208,
};

/// What `bulk` comes to of the same, on four workers and on eight: each list is read once for all queries.
#[test]
fn comes_to_what_bulk_does(rt: HostRuntime) {
    let are_so = [
        figures_over(&rt, rt.alloc(), SMALL, 4) == Some(SMALL_FIGURES),
        figures_over(&rt, rt.alloc(), LARGE, 8) == Some(LARGE_FIGURES),
    ];
    assert_eq!(rt; are_so, [true, true]);
}
