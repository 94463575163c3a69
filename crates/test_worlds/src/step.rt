//! What may happen in a world.

use ranked_list::PageRows;
use source_api::FailKind;

/// A step of a world: something of one source, or a turn of one query. Sources and queries count from 0.
#[derive(Drop)]
pub enum Step {
    /// The rows that follow those that the source's state keeps. Without rows the list is short.
    Page {
        source: u32,
        rows: PageRows,
    },
    /// The grade of an object whose ask is pending.
    Grade {
        source: u32,
        object: u32,
        grade: u32,
    },
    /// The source hasn't the object, whose ask is pending.
    Miss {
        source: u32,
        object: u32,
    },
    /// A call of the source failed.
    Fail {
        source: u32,
        what: FailKind,
    },
    /// The list was replaced: the reply that came, of a page or of the grade of `object`, whose ask is pending, stated the version
    /// `now`, and not the version `had` that the list was opened with.
    Move {
        source: u32,
        object: Option<u32>,
        had: u64,
        now: u64,
    },
    /// The query looks once for what it needs.
    Turn {
        query: u32,
    },
}
