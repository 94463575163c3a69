//! Where a machine is in its run.

ghost use Rattle.std.specs.Prelude.{◌≡◌};
ghost use Rattle.fa_core.specs.Course.{need_at, asking};

use machine_base::{Ask, Need};

/// Which access is next. Lists count from 0 and depths from 1.
#[derive(Clone, Copy)]
pub(crate) enum Stage {
    /// The row of a list at a depth, where so many objects were given by every list.
    Row { list: u8, depth: u32, common: u32 },
    /// A grade of one of the seen objects.
    Asking(Ask),
    /// None.
    Done,
}

impl Stage {
    /// What is asked next, or the end where nothing is.
    pub(crate) fn asking(next: Option<Ask>) -> Stage
        ensures { result ≡ asking next }
    {
        match next {
            Some(ask) => Stage::Asking(ask),
            None => Stage::Done,
        }
    }

    /// What is needed next.
    pub(crate) fn need(self) -> Need
        ensures { result ≡ need_at self }
    {
        match self {
            Stage::Row { list, depth, .. } => Need::Row { list, depth },
            Stage::Asking(ask) => Need::Grade {
                list: ask.list,
                object: ask.object,
            },
            Stage::Done => Need::Done,
        }
    }
}
