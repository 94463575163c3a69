//! Where a machine is in its run.

ghost use Rattle.std.specs.Prelude.{◌≡◌};
ghost use Rattle.ca_core.specs.Course.{need_at, finish_of};

use machine_base::{Ask, Need};

/// Which access is next. Lists count from 0 and depths from 1.
#[derive(Clone, Copy)]
pub(crate) enum Stage {
    /// The row of a list at a depth.
    Row { list: u8, depth: u32 },
    /// The grade in a list of the object that was chosen at a depth.
    Choice { list: u8, object: u32, depth: u32 },
    /// A grade of one of the first k.
    Finish(Ask),
    /// None.
    Done,
}

impl Stage {
    /// The finish with what is asked next of the first k, or the end where nothing is.
    pub(crate) fn finish(next: Option<Ask>) -> Stage
        ensures { result ≡ finish_of next }
    {
        match next {
            Some(ask) => Stage::Finish(ask),
            None => Stage::Done,
        }
    }

    /// What is needed next.
    pub(crate) fn need(self) -> Need
        ensures { result ≡ need_at self }
    {
        match self {
            Stage::Row { list, depth } => Need::Row { list, depth },
            Stage::Choice { list, object, .. } => Need::Grade { list, object },
            Stage::Finish(ask) => Need::Grade {
                list: ask.list,
                object: ask.object,
            },
            Stage::Done => Need::Done,
        }
    }
}
