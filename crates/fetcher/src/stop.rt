//! A sign to stop.

use source_pool::Pool;
use std::sync::atomic::{AtomicBool, Ordering};

/// A sign that fetchers look at between two turns.
#[derive(Drop)]
pub struct Stop {
    flag: AtomicBool,
}

impl Stop {
    /// A sign that isn't set. Takes no memory.
    pub fn make() -> Stop {
        Stop {
            flag: AtomicBool::new(false),
        }
    }

    /// Sets the sign, for good, and wakes the feeders of a pool, which look at it.
    pub fn set(&self, pool: &Pool) {
        self.flag.store(true, Ordering::SeqCst);
        pool.wake_feeders();
    }

    /// Whether it is set.
    pub fn is_set(&self) -> bool {
        self.flag.load(Ordering::SeqCst)
    }
}
