//! How long some calls of a connection may take together.

use std::time::{Clock, Instant};

/// When the first of some calls began, if one did. Each of them has to begin within so many seconds from then on.
#[derive(Drop)]
pub(crate) struct TimeLimit {
    seconds: u64,
    first: Option<Instant>,
}

impl TimeLimit {
    /// No call began yet.
    pub(crate) fn make(seconds: u64) -> TimeLimit {
        TimeLimit {
            seconds,
            first: None,
        }
    }

    /// Whether a call may begin now. Where the clock can't be read, none may.
    pub(crate) fn admits<C: Clock>(&mut self, clock: &C) -> bool {
        let Ok(now) = Instant::now(clock) else {
            return false;
        };
        let first = *self.first.get_or_insert(now);
        now.duration_since(first).as_secs() < self.seconds
    }
}
