//! Two lists of three objects.

use super::acts::Sources;

/// Two lists of three objects.
pub const THREE_LISTS: &[&[(u32, u32)]] = &[
    &[(1, 900), (2, 800), (3, 100)],
    &[(2, 700), (3, 600), (1, 500)],
];

/// These lists, which random access agrees with, a row a page.
pub const THREE: Sources = Sources {
    lists: THREE_LISTS,
    grades: &[],
    page: 1,
    fails: None,
};
