//! The ask of one object, as it stands.

use super::entry::Settling;
use ranked_list::Row;

/// An object that was asked for, what it settled as, and whether the rows hold it.
#[derive(Clone, Copy)]
pub struct Ask {
    pub object: u32,
    pub settling: Option<Settling>,
    pub is_held: bool,
}

impl Ask {
    ghost use Rattle.std.specs.Prelude.{◌≡◌};
    ghost use Rattle.source_state.specs.Asks.{open_grade, open_row, is_due, good_grade};

    /// Its grade, where it is good.
    pub fn grade(&self) -> Option<u32>
        ensures { result ≡ good_grade self.now.settling }
    {
        match self.settling {
            Some(Settling::Graded(grade)) => Some(grade),
            Some(Settling::Bad(_)) | Some(Settling::Missed) | None => None,
        }
    }

    /// Its good grade, where the rows don't hold it.
    pub fn open_grade(&self) -> Option<u32>
        ensures { result ≡ open_grade self.now }
    {
        if self.is_held { None } else { self.grade() }
    }

    /// The same as a row of its object.
    pub fn open_row(&self) -> Option<Row>
        ensures { result ≡ open_row self.now }
    {
        match self.open_grade() {
            Some(grade) => Some(Row {
                object: self.object,
                grade,
            }),
            None => None,
        }
    }

    /// Whether its grade is still to be fetched.
    pub fn is_due(&self) -> bool
        ensures { result ≡ is_due self.now }
    {
        !self.is_held && self.settling.is_none()
    }
}
