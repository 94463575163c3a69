//! What turns bring.

use source_api::Trouble;

/// What a turn of a fetcher brought.
#[derive(Clone, Copy, PartialEq, Eq)]
pub enum Turned {
    /// The source gave a page of so many rows.
    Paged { rows: u32 },
    /// The source gave the grade of the object.
    Graded { object: u32 },
    /// The source hasn't the object.
    Missed { object: u32 },
    /// The call of the source gave no answer, for this.
    Troubled(Trouble),
    /// Nothing was to be fetched.
    Idle,
}

/// How much a source gave.
#[derive(Clone, Copy, PartialEq, Eq)]
pub struct Fetched {
    /// The rows of its pages.
    pub rows: u32,
    /// The answered calls for a grade.
    pub grades: u32,
}
