//! Where a machine is in its run.

ghost use Rattle.std.specs.Prelude.{◌≡◌};
ghost use Rattle.nra_core.specs.Place.{need_at};

use machine_base::Need;

/// The list that is read next, and its depth, from 1.
#[derive(Clone, Copy)]
pub(crate) struct Place {
    pub list: u8,
    pub depth: u32,
    /// Whether nothing more is read: the list and the depth are those of the last row then.
    pub done: bool,
}

impl Place {
    /// What is needed next.
    pub(crate) fn need(self) -> Need
        ensures { result ≡ need_at self }
    {
        if self.done {
            Need::Done
        } else {
            Need::Row {
                list: self.list,
                depth: self.depth,
            }
        }
    }
}
