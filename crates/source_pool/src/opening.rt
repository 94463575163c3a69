//! Opening the locks of several sources.

ghost use Rattle.std.specs.Prelude.{◌≡◌, ◌≤◌, ◌<◌, ◌^◌, ◌∷◌, [], ◌++◌, ℕ, List, length, All, IfOk, OnOk, vec_len};
ghost use Rattle.source_pool.specs.Sharing.{IsOpened};
ghost use Rattle.source_pool.specs.HoldSharing.{first_known};
ghost use Rattle.source_pool.specs.Remembering.{nothing};
ghost use Rattle.source_pool.specs.Rooms.{HasRoom, HasPlace, IsEmpty};

use super::feeder::Feeder;
use super::hold::{Hold, NO_FAILS, NO_WAITING};
use super::lock_opening::open_lock;
use super::remembered::Remembered;
use source_state::{Memory, SourceState};
use std::alloc::Global;
use topk_base::MAX_OBJECTS;
use turn_lock::{Pass, TurnLock};

/// The parts of a lock that go to the first pass of a pool: all but the feeder's one.
const PASS_PARTS: u64 = 4_294_967_295;

/// Sources that are opened, in their order.
#[derive(Drop)]
pub struct OpenedLocks {
    /// Their locks.
    pub locks: Vec<TurnLock<SourceState>>,
    /// What the first pass holds of each.
    pub holds: Vec<Hold>,
    /// The feeder of each.
    pub feeders: Vec<Feeder>,
}

impl OpenedLocks {
    /// No sources, with room for so many.
    fn make(alloc: Global, room: usize) -> Result<OpenedLocks, Memory>
        ensures empty { IfOk result IsEmpty }
        ensures room { IfOk result (HasRoom room) }
    {
        let Ok(locks) = Vec::with_capacity(alloc, room) else {
            return Err(Memory);
        };
        let Ok(holds) = Vec::with_capacity(alloc, room) else {
            return Err(Memory);
        };
        let Ok(feeders) = Vec::with_capacity(alloc, room) else {
            return Err(Memory);
        };
        Ok(OpenedLocks {
            locks,
            holds,
            feeders,
        })
    }
}

/// Adds one more source, for which there is room.
fn add(
    opened: &mut OpenedLocks,
    lock: TurnLock<SourceState>,
    mut writer: Pass<SourceState>,
    remembered: Remembered,
    count: u32,
)
    requires few { vec_len opened.old.locks < 2 ^ 32 }
    requires count { count ≤ MAX_OBJECTS }
    requires room { HasPlace opened.old }
    requires empty { remembered ≡ nothing }
    requires pass { writer ≡ (lock, first_known (length opened.old.locks.items) count) }
    ensures added { (counts : List ℕ) → IsOpened counts opened.old.locks.items opened.old.holds.items opened.old.feeders.items
        → IsOpened (counts ++ count ∷ []) opened.new.locks.items opened.new.holds.items opened.new.feeders.items }
    ensures room { (room : ℕ) → HasRoom room opened.old → HasRoom room opened.new }
{
    let source = opened.locks.len() as u32;
    let pass = lock.split(&mut writer, PASS_PARTS);
    opened.holds.push_reserved(Hold {
        pass,
        waiting: NO_WAITING,
        shown: NO_FAILS,
        remembered,
    });
    opened.feeders.push_reserved(Feeder {
        source,
        pass: writer,
    });
    opened.locks.push_reserved(lock);
}

/// Opens one more source, for which there is room.
fn open_next(alloc: Global, opened: &mut OpenedLocks, count: u32) -> Result<(), Memory>
    requires few { vec_len opened.old.locks < 2 ^ 32 }
    requires count { count ≤ MAX_OBJECTS }
    requires room { HasPlace opened.old }
    ensures added { OnOk result ((counts : List ℕ) → IsOpened counts opened.old.locks.items opened.old.holds.items opened.old.feeders.items
        → IsOpened (counts ++ count ∷ []) opened.new.locks.items opened.new.holds.items opened.new.feeders.items) }
    ensures room { OnOk result ((room : ℕ) → HasRoom room opened.old → HasRoom room opened.new) }
{
    let source = opened.locks.len() as u32;
    let remembered = Remembered::make(alloc, count)?;
    let (lock, writer) = open_lock(alloc, source, count)?;
    add(opened, lock, writer, remembered, count);
    Ok(())
}

/// The locks of sources with these counts, what the first pass holds of each, and the feeder of each.
pub fn open_all(alloc: Global, counts: &[u32]) -> Result<OpenedLocks, Memory>
    requires few { length counts.now < 2 ^ 32 }
    requires counts { All (λ count. count ≤ MAX_OBJECTS) counts.now }
    ensures { IfOk result (λ o. IsOpened counts.now o.locks.items o.holds.items o.feeders.items) }
{
    let mut opened = OpenedLocks::make(alloc, counts.len())?;
    for place in 0..counts.len() {
        open_next(alloc, &mut opened, counts[place])?;
    }
    Ok(opened)
}
