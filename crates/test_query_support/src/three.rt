//! Queries over two lists of three objects, object 1 with the grades 900 and 500, 2 with 800 and 700, 3 with 100 and 600.

use super::outcomes::{Asked, Expected, Figures};

/// The query of the first row, and how it ends.
pub const FIRST: Asked = ("top 1 by sum(A,B) using ta", &[0, 1]);

pub const FIRST_ENDS: Expected = Expected::Answered(
    &[(2, 1500, 1500)],
    Figures {
        depth: 2,
        sorted: 4,
        random: 3,
        cost: 7,
    },
);

/// The same without random access.
pub const SORTED: Asked = ("top 1 by sum(A,B) using nra", &[0, 1]);

pub const SORTED_ENDS: Expected = Expected::Answered(
    &[(2, 1500, 1500)],
    Figures {
        depth: 2,
        sorted: 4,
        random: 0,
        cost: 4,
    },
);

/// Within the factor 8 / 7: at depth 1 the threshold is 1600, and 8 times 1500 is 12000.
pub const NEAR: Asked = ("top 1 by sum(A,B) using theta 8/7", &[0, 1]);

pub const NEAR_ENDS: Expected = Expected::Answered(
    &[(2, 1500, 1500)],
    Figures {
        depth: 1,
        sorted: 2,
        random: 2,
        cost: 4,
    },
);

/// Stopped from depth 1 on, where one object was seen.
pub const EARLY: Asked = ("top 1 by sum(A,B) using early 1", &[0, 1]);

pub const EARLY_ENDS: Expected = NEAR_ENDS;

/// Over the first list alone, of which all three rows are read: the second answers grades.
pub const RESTRICTED: Asked = ("top 1 by sum(A,B) using taz", &[0, 1]);

pub const RESTRICTED_ENDS: Expected = Expected::Answered(
    &[(2, 1500, 1500)],
    Figures {
        depth: 3,
        sorted: 3,
        random: 3,
        cost: 6,
    },
);
