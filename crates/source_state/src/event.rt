//! What may happen to a source.

use ranked_list::PageRows;
use source_api::FailKind;

/// An event of a source: what queries want of it, and what came of it.
#[derive(Drop)]
pub enum Event {
    /// The rows down to this depth are wanted.
    Want {
        depth: u32,
    },
    /// The grade of this object is asked for.
    Ask {
        object: u32,
    },
    /// The rows that follow those that were kept. Without rows the list is short.
    Page {
        rows: PageRows,
    },
    /// The grade of an object whose ask is pending.
    Grade {
        object: u32,
        grade: u32,
    },
    /// The source hasn't the object, whose ask is pending.
    Miss {
        object: u32,
    },
    /// A call of the source failed so.
    Fail {
        what: FailKind,
    },
    /// The list was replaced: the reply that came, of a page or of the grade of `object`, whose ask is pending, stated the version
    /// `now`, and not the version `had` that the list was opened with. Nothing of the reply is kept.
    Move {
        object: Option<u32>,
        had: u64,
        now: u64,
    },
}

/// Whether an event set the row fault.
#[derive(Clone, Copy, Debug, PartialEq, Eq)]
pub enum Applied {
    /// It didn't.
    Done,
    /// It did.
    Broken,
}
