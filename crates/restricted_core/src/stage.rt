//! Where a machine is in its run.

ghost use Rattle.std.specs.Prelude.{◌≡◌};
ghost use Rattle.restricted_core.specs.Course.{need_at};

use machine_base::{Ask, Need};

/// Which access is next. Lists count from 0 and depths from 1. The first `whole` of the seen objects, those that the depths
/// above gave, have all their grades, and are on the board.
#[derive(Clone, Copy)]
pub(crate) enum Stage {
    /// The row of a list at a depth.
    Row { list: u8, depth: u32, whole: u32 },
    /// A grade of a seen object, after the rows of a depth.
    Asking { ask: Ask, depth: u32, whole: u32 },
    /// None.
    Done,
}

impl Stage {
    /// What is needed next.
    pub(crate) fn need(self) -> Need
        ensures { result ≡ need_at self }
    {
        match self {
            Stage::Row { list, depth, .. } => Need::Row { list, depth },
            Stage::Asking { ask, .. } => Need::Grade {
                list: ask.list,
                object: ask.object,
            },
            Stage::Done => Need::Done,
        }
    }
}
