//! Splitting and joining a pass of one source.

ghost use Rattle.std.specs.Prelude.{◌≡◌, ◌≤◌};
ghost use Rattle.turn_lock.specs.Known.{Follows};
ghost use Rattle.source_pool.specs.Holds.{IsFree};
ghost use Rattle.source_pool.specs.Remembering.{nothing};
ghost use Rattle.source_pool.specs.HoldSharing.{kept_hold, new_hold, joined_hold, all_shown};

use super::hold::{Hold, NO_FAILS, NO_WAITING};
use super::remembered::Remembered;
use source_state::{SourceState, Tally};
use turn_lock::TurnLock;

/// Splits one part of a source off. The new pass knows as much, did nothing yet, waits for nothing, and remembers nothing.
pub fn split_one(lock: &TurnLock<SourceState>, hold: &mut Hold, remembered: Remembered) -> Hold
    requires own { IsFree lock.now hold.old.pass }
    requires parts { 2 ≤ hold.old.pass.1.parts }
    requires empty { remembered ≡ nothing }
    ensures kept { hold.new ≡ kept_hold hold.old }
    ensures given { result ≡ new_hold hold.old }
{
    Hold {
        pass: lock.split(&mut hold.pass, 1),
        waiting: NO_WAITING,
        shown: NO_FAILS,
        remembered,
    }
}

/// Two tallies together.
fn all_shown(one: Tally, other: Tally) -> Tally
    ensures { result ≡ all_shown one other }
{
    Tally {
        failed: one.failed.saturating_add(other.failed),
        garbled: one.garbled.saturating_add(other.garbled),
        memory: one.memory.saturating_add(other.memory),
    }
}

/// Joins what another pass holds of a source.
pub fn join_one(lock: &TurnLock<SourceState>, hold: &mut Hold, other: Hold)
    requires own { IsFree lock.now hold.old.pass }
    requires other { IsFree lock.now other.pass }
    ensures joined { hold.new ≡ joined_hold hold.old other }
    ensures follows { Follows hold.old.pass.1 hold.new.pass.1 }
    ensures knows { Follows other.pass.1 hold.new.pass.1 }
    ensures name { other.pass.1.name ≡ hold.old.pass.1.name }
{
    let Hold { pass, shown, .. } = other;
    lock.join(&mut hold.pass, pass);
    hold.waiting.need = None;
    hold.remembered.clear();
    hold.shown = all_shown(hold.shown, shown);
}
