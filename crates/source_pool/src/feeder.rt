//! The feeder of a source.

ghost use Rattle.std.specs.Prelude.{◌≡◌, None, IfSome, IsSomeAnd};
ghost use Rattle.turn_lock.specs.Facts.{FactsGrow};
ghost use Rattle.turn_lock.specs.Known.{KnowsOf, HasAll};
ghost use Rattle.source_state.specs.State.{facts_of};
ghost use Rattle.source_pool.specs.Passes.{in_turn, turned};

use source_state::SourceState;
use std::marker::Model;
use std::sync::Wait;
use turn_lock::{Pass, TurnLock};

/// The right to write the state of one source. To a contract it is the source's number and the writer's pass of its lock.
pub struct Feeder {
    pub(crate) source: u32,
    pub(crate) pass: Pass<SourceState>,
}

/// Written here, and not derived, so that a crate that lets a feeder go calls this.
impl Drop for Feeder {
    fn drop(self) {
        let Feeder {
            source: _,
            pass: _pass,
        } = self;
    }
}

impl Model for Feeder {
    ghost use Rattle.std.specs.Prelude.{◌≡◌, true};
    ghost use Rattle.source_pool.specs.Passes.{Feed};

    ghost Value = { Feed };

    ghost view = { λ a. record { source = a.source; pass = a.pass } };

    ghost invariant = { λ a. a.pass.1.writer ≡ true };
}

impl Feeder {
    /// The number of its source.
    pub fn source(&self) -> u32
        ensures { result ≡ self.now.source }
    {
        self.source
    }

    /// The writer's pass.
    pub(crate) fn into_pass(self) -> Pass<SourceState>
        ensures { result ≡ self.pass }
    {
        let Feeder { source: _, pass } = self;
        pass
    }

    /// Waits for its turn at the lock of its source, and takes the state. The state's log and its tally are those that the feeder knows.
    pub fn take(&mut self, rt: &impl Wait, lock: &TurnLock<SourceState>) -> SourceState
        requires own { self.old.pass.0 ≡ lock.now }
        requires rests { self.old.pass.1.held ≡ None }
        ensures feeder { self.new ≡ in_turn (facts_of result) self.old }
        ensures state { KnowsOf (facts_of result) self.old.pass.1 }
        ensures all { HasAll (facts_of result) self.old.pass.1 }
    {
        lock.take(rt, &mut self.pass)
    }

    /// Gives a state in place of the one that was taken, and ends the turn.
    pub fn give(&mut self, lock: &TurnLock<SourceState>, state: SourceState)
        requires own { self.old.pass.0 ≡ lock.now }
        requires turn { IsSomeAnd self.old.pass.1.held (λ f. FactsGrow f (facts_of state)) }
        ensures { IfSome self.old.pass.1.held (λ f. self.new ≡ turned f (facts_of state) self.old) }
    {
        lock.give(&mut self.pass, state);
    }
}
