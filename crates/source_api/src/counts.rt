//! What a source counts.

ghost use Rattle.std.specs.Prelude.{◌≡◌};
ghost use Rattle.source_api.specs.Counting.{no_counts, troubled, gave_rows, gave_grade, added};

use super::{FailKind, Trouble};

/// What a source counts over its calls. Each count stands still at the last value of its type.
#[derive(Clone, Copy, Debug, PartialEq, Eq)]
pub struct Counts {
    /// Calls that failed.
    pub faults: u64,
    /// Calls that were answered by garbled data.
    pub garbles: u64,
    /// Calls whose reply stated another version of the list than the one at hand.
    pub moves: u64,
    /// Rows that pages gave.
    pub rows_given: u64,
    /// Calls for a grade that were answered, by a grade or by none.
    pub grades_given: u64,
}

impl Counts {
    /// Nothing counted yet.
    pub fn none() -> Counts
        ensures { result ≡ no_counts }
    {
        Counts {
            faults: 0,
            garbles: 0,
            moves: 0,
            rows_given: 0,
            grades_given: 0,
        }
    }

    /// Counts a call that ended so. Lack of memory isn't counted.
    pub fn count_trouble(&mut self, trouble: Trouble)
        ensures { self.new ≡ troubled trouble self.old }
    {
        match trouble {
            Trouble::Fail(FailKind::Failed) => self.faults = self.faults.saturating_add(1),
            Trouble::Fail(FailKind::Garbled) => self.garbles = self.garbles.saturating_add(1),
            Trouble::Moved { .. } => self.moves = self.moves.saturating_add(1),
            Trouble::Fail(FailKind::Memory) => {}
        }
    }

    /// Counts a page of so many rows.
    pub fn count_rows(&mut self, rows: u64)
        ensures { self.new ≡ gave_rows rows self.old }
    {
        self.rows_given = self.rows_given.saturating_add(rows);
    }

    /// Counts an answer to a call for a grade.
    pub fn count_grade(&mut self)
        ensures { self.new ≡ gave_grade self.old }
    {
        self.grades_given = self.grades_given.saturating_add(1);
    }

    /// Adds what another source counted.
    pub fn add(&mut self, other: Counts)
        ensures { self.new ≡ added self.old other }
    {
        self.faults = self.faults.saturating_add(other.faults);
        self.garbles = self.garbles.saturating_add(other.garbles);
        self.moves = self.moves.saturating_add(other.moves);
        self.rows_given = self.rows_given.saturating_add(other.rows_given);
        self.grades_given = self.grades_given.saturating_add(other.grades_given);
    }
}
