//! The entries of a source's log.

use ranked_list::Row;
use std::mem::size_of;

/// What is at fault with the rows or with a grade of a source. Places count from 1.
#[derive(Clone, Copy, PartialEq, Eq)]
pub enum SourceFault {
    /// The grade `after` of the row at `place` is above `before`, the grade of the row over it.
    OutOfOrder {
        place: u32,
        before: u32,
        after: u32,
    },
    /// The grade of the row at `place` is above the greatest that there is, 1,000,000.
    TooHigh {
        place: u32,
        grade: u32,
    },
    /// The row at `place` has the object of a row above it.
    Repeated {
        object: u32,
        place: u32,
    },
    /// The source gave both grades of the object, one by sorted and one by random access.
    Clash {
        object: u32,
        sorted: u32,
        random: u32,
    },
    /// Random access gave `grade` for an object that the rows don't hold, and a row, or the last one, has the lesser grade
    /// `bottom`.
    Above {
        object: u32,
        grade: u32,
        bottom: u32,
    },
    /// A page came without rows after `got` rows of the `stated` ones.
    ShortList {
        stated: u32,
        got: u32,
    },
    /// The list was replaced: a reply stated the version `now`, and not the version `had` that the list was opened with.
    Moved {
        had: u64,
        now: u64,
    },
}

/// What an ask came to.
#[derive(Clone, Copy)]
pub enum Settling {
    /// The source gave this grade, which goes with its rows.
    Graded(u32),
    /// The source gave a grade that doesn't go with its rows, or its list was replaced.
    Bad(SourceFault),
    /// The source hasn't the object.
    Missed,
}

/// What became of an ask.
#[derive(Clone, Copy, PartialEq, Eq)]
pub enum Asked {
    /// Nothing came yet.
    Pending,
    /// The source gave this grade, which goes with its rows.
    Graded(u32),
    /// The source gave a grade that doesn't go with its rows, or its list was replaced.
    Bad(SourceFault),
    /// The source hasn't the object.
    Missed,
}

/// An entry of the log.
#[derive(Clone, Copy)]
pub enum LogEntry {
    /// A row that was kept, the next from the top.
    Kept(Row),
    /// The ask of an object was settled.
    Settled { object: u32, settling: Settling },
    /// The rows are at fault from here on.
    Fault(SourceFault),
}

/// Where an entry of the log stands.
#[derive(Clone, Copy)]
pub enum Note {
    /// The row at this place was kept.
    Kept { place: u32 },
    /// The ask at this place was settled.
    Settled { place: u32 },
    /// The row fault was set.
    Fault,
}

const _: () = prove!(size_of::<Note>() == 8);
