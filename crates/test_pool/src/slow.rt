//! A source that answers for a page only after a reader has looked once more.

use ranked_list::Row;
use source_api::{FailKind, Source, Trouble};
use std::alloc::Global;
use std::sync::atomic::{AtomicU64, Ordering};
use test_mem_source::MemSource;

/// How often it looks at the count of looks before it gives up.
const PATIENCE: u64 = 1_000_000_000;

/// Rows in memory, of which a page comes only after the count of looks has risen.
#[derive(Drop)]
pub struct Slow<'a> {
    pub rows: MemSource,
    pub looks: &'a AtomicU64,
}

/// Waits until the count rises, and tells whether it did.
fn rises(looks: &AtomicU64) -> bool {
    let before = looks.load(Ordering::SeqCst);
    for _ in 0..PATIENCE {
        if looks.load(Ordering::SeqCst) != before {
            return true;
        }
    }
    false
}

impl<'a> Source for Slow<'a> {
    ghost use Rattle.test_mem_source.specs.InMemory.{told_list, told_version};
    ghost use Rattle.test_mem_source.specs.EachOnce.{told_has_each_once};

    ghost list = { λ s. told_list s.rows };

    ghost counts = { λ s. s.rows.counts };

    ghost at_hand = { λ s. s.rows.version };

    ghost states = { λ s. told_version s.rows };

    fn size(&mut self, alloc: Global) -> Result<u64, Trouble> {
        self.rows.size(alloc)
    }

    fn page(&mut self, alloc: Global, from: u32, count: u32) -> Result<Vec<Row>, Trouble> {
        if !rises(self.looks) {
            return Err(Trouble::Fail(FailKind::Memory));
        }
        self.rows.page(alloc, from, count)
    }

    fn grade(&mut self, alloc: Global, object: u32) -> Result<Option<u32>, Trouble> {
        self.rows.grade(alloc, object)
    }

    fn version(&self) -> u64 {
        self.rows.version()
    }

    ghost distinct = { λ s. told_has_each_once s.rows };
}
