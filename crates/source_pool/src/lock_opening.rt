//! Opening the lock of one source.

ghost use Rattle.std.specs.Prelude.{◌≡◌, ◌≤◌, IfOk};
ghost use Rattle.source_pool.specs.HoldSharing.{first_known};

use source_state::{Memory, SourceState};
use std::alloc::Global;
use topk_base::MAX_OBJECTS;
use turn_lock::{Pass, TurnLock};

/// The lock round the state of a source that had no event, with the writer's pass.
pub fn open_lock(
    alloc: Global,
    source: u32,
    count: u32,
) -> Result<(TurnLock<SourceState>, Pass<SourceState>), Memory>
    requires { count ≤ MAX_OBJECTS }
    ensures { IfOk result (λ r. r.1 ≡ (r.0, first_known source count)) }
{
    let state = SourceState::open(alloc, source, count)?;
    match TurnLock::open(alloc, state) {
        Ok(opened) => Ok(opened),
        Err(state) => {
            drop(state);
            Err(Memory)
        }
    }
}
