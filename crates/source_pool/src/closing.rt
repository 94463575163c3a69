//! Closing the locks of several sources.

ghost use Rattle.std.specs.Prelude.{◌≡◌, ◌≤◌, ◌+◌, ◌<◌, ◌^◌, [], vec_len, vec_capacity};
ghost use Rattle.turn_lock.specs.Known.{all_parts};
ghost use Rattle.source_pool.specs.Holds.{IsFree};
ghost use Rattle.source_pool.specs.Passes.{IsPassOf, AreFeedersOf};
ghost use Rattle.source_pool.specs.Closed.{HaveAll, IsClosed, AreClosed, AreClosedBack};

use super::feeder::Feeder;
use super::hold::Hold;
use source_state::SourceState;
use turn_lock::TurnLock;

/// Closes the lock of one source, by the last pass and the feeder.
fn close_one(lock: TurnLock<SourceState>, hold: Hold, feeder: Feeder) -> SourceState
    requires pass { IsFree lock hold.pass }
    requires feeder { IsFree lock feeder.pass }
    requires whole { hold.pass.1.parts + feeder.pass.1.parts ≡ all_parts }
    ensures { IsClosed feeder.pass.1 hold.pass.1 result }
{
    let Hold { pass, .. } = hold;
    let mut writer = feeder.into_pass();
    lock.join(&mut writer, pass);
    let state = lock.close(writer);
    // Serves the prover alone: `count` promises that the state is sound.
    let _ = state.count();
    state
}

/// Closes the locks from the last one to the first.
fn close_back(
    locks: &mut Vec<TurnLock<SourceState>>,
    holds: &mut Vec<Hold>,
    feeders: &mut Vec<Feeder>,
    states: &mut Vec<SourceState>,
)
    requires own { IsPassOf locks.old.items holds.old.items }
    requires feeders { AreFeedersOf locks.old.items feeders.old.items }
    requires whole { HaveAll locks.old.items holds.old.items feeders.old.items }
    requires room { (states.old.items ≡ []) × (vec_len locks.old ≤ vec_capacity states.old) }
    ensures { AreClosedBack locks.old.items holds.old.items feeders.old.items states.new.items }
{
    while let Some(lock) = locks.pop() {
        let hold = holds.pop().unwrap();
        let feeder = feeders.pop().unwrap();
        states.push_reserved(close_one(lock, hold, feeder));
    }
}

/// Closes all locks, and gives the states in the order of the sources, in a vector with room for them.
pub fn close_all(
    mut locks: Vec<TurnLock<SourceState>>,
    mut holds: Vec<Hold>,
    mut feeders: Vec<Feeder>,
    mut states: Vec<SourceState>,
) -> Vec<SourceState>
    requires few { vec_len locks < 2 ^ 32 }
    requires own { IsPassOf locks.items holds.items }
    requires feeders { AreFeedersOf locks.items feeders.items }
    requires whole { HaveAll locks.items holds.items feeders.items }
    requires room { (states.items ≡ []) × (vec_len locks ≤ vec_capacity states) }
    ensures closed { AreClosed locks.items holds.items feeders.items result.items }
    ensures few { vec_len result < 2 ^ 32 }
{
    close_back(&mut locks, &mut holds, &mut feeders, &mut states);
    states.reverse();
    states
}
