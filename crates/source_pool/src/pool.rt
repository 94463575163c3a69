//! Pools.

ghost use Rattle.std.specs.Prelude.{◌≡◌, ◌≤◌, ◌<◌, ◌^◌, length, All, IfOk, OnErr, IfSome, IsSomeAnd, Some};
ghost use Rattle.turn_lock.specs.Facts.{FactsGrow};
ghost use Rattle.turn_lock.specs.Known.{KnowsOf, HasAll};
ghost use Rattle.source_state.specs.State.{facts_of};
ghost use Rattle.source_pool.specs.Passes.{hold_at, IsPassOf, OthersStay, IsFeederOf, IsIdleOf, AreFeedersOf, in_turn, turned};
ghost use Rattle.source_pool.specs.Looks.{MayLookFor, Answers, Waits, shown_by, said_in, KnowsOn, IsLook, AsksAhead, IsWithin};
ghost use Rattle.source_pool.specs.Windows.{row_held};
ghost use Rattle.source_state.specs.declared.look.Look.TheVariants as look;
ghost use Rattle.source_pool.specs.Sharing.{IsOpened, MaySplit, IsSplit, IsJoined};
ghost use Rattle.source_pool.specs.Closed.{HaveAll, AreClosed};

use super::closing::close_all;
use super::feeder::Feeder;
use super::look::{look_ahead, look_once};
use super::opening::open_all;
use super::pool_pass::PoolPass;
use super::sharing::{join_all, make_all, split_all};
use super::{Feeders, States};
use ranked_list::{Need, Row};
use source_state::{Look, Memory, SourceState};
use std::alloc::Global;
use std::marker::Model;
use std::sync::Wait;
use topk_base::MAX_OBJECTS;
use turn_lock::TurnLock;

/// The sources that queries share, each behind a lock of its own. To a contract it is the list of the locks.
pub struct Pool {
    locks: Vec<TurnLock<SourceState>>,
    /// Room for the states when the pool is closed.
    room: Vec<SourceState>,
}

/// Written here, and not derived, so that a crate that lets a pool go calls this.
impl Drop for Pool {
    fn drop(self) {
        let Pool {
            locks: _locks,
            room: _room,
        } = self;
    }
}

impl Model for Pool {
    ghost use Rattle.std.specs.Prelude.{◌≡◌, ◌≤◌, ◌<◌, ◌^◌, [], List, vec_len, vec_capacity};
    ghost use Rattle.atomic_table.specs.Seated.{TableId};

    ghost Value = { List TableId };

    ghost view = { λ a. a.locks.items };

    ghost invariant = { λ a. (vec_len a.locks < 2 ^ 32) × (a.room.items ≡ []) × (vec_len a.locks ≤ vec_capacity a.room) };
}

/// Wakes the feeder of a source where a look is not yet answered.
fn wake_feeder(lock: &TurnLock<SourceState>, answer: Look) {
    match answer {
        Look::NotYet => lock.wanted().notify_all(),
        Look::Row(_) | Look::Grade(_) | Look::Fault(_) => {}
    }
}

impl Pool {
    /// A pool of sources with these counts of objects, with a pass and a feeder for each source. A feeder has one part of its source's
    /// lock, and the pass all others.
    ///
    /// *Cost*: `SourceState::open`, a lock and the room for what is remembered for each source, and the room for the closing states.
    pub fn open(alloc: Global, counts: &[u32]) -> Result<(Pool, PoolPass, Feeders), Memory>
        requires few { length counts.now < 2 ^ 32 }
        requires counts { All (λ count. count ≤ MAX_OBJECTS) counts.now }
        ensures { IfOk result (λ r. IsOpened counts.now r.0 r.1 r.2) }
    {
        let Ok(room) = Vec::with_capacity(alloc, counts.len()) else {
            return Err(Memory);
        };
        let opened = open_all(alloc, counts)?;
        let pool = Pool {
            locks: opened.locks,
            room,
        };
        let pass = PoolPass {
            holds: opened.holds,
        };
        let feeders = Feeders::from_vec(opened.feeders);
        Ok((pool, pass, feeders))
    }

    /// Looks for what a query needs of a source, by its number. A row or a grade that the pass remembers is the answer; else it looks in one
    /// turn of the source's lock, for which it may wait. The row at a depth or the grade of an object is there, or it can't be had and the
    /// fault says why, or the pass waits for it, and the source's feeder is woken. A row that is there is remembered with those below it, up to
    /// 256, and so is a grade for which the source was asked, where the pass didn't wait for it.
    ///
    /// *Cost*: one read of what is remembered; or one turn of the source's lock, one `look_at` in it, a copy of up to 256 rows where a row is
    /// there, a look-up where a grade is, and a wake of the feeder where nothing is there yet. No memory, and nothing grows with what is kept.
    pub fn look(&self, rt: &impl Wait, pass: &mut PoolPass, source: u32, need: Need) -> Look
        requires own { IsPassOf self.now pass.old }
        requires source { source < length self.now }
        requires need { MayLookFor (hold_at pass.old source).pass.1 need }
        ensures own { IsPassOf self.now pass.new }
        ensures others { OthersStay source pass.old pass.new }
        ensures look { IsLook need (hold_at pass.old source) (hold_at pass.new source) result }
        ensures answer { Answers need (hold_at pass.old source) (hold_at pass.new source) result }
        ensures waits { Waits need (hold_at pass.old source) (hold_at pass.new source) result }
        ensures shown { (hold_at pass.new source).shown ≡ shown_by result (hold_at pass.old source).shown }
        ensures knows { KnowsOn (hold_at pass.old source).pass.1 (hold_at pass.new source).pass.1 }
        ensures within { IsWithin (hold_at pass.old source) → IsWithin (hold_at pass.new source) }
    {
        let lock = &self.locks[source as usize];
        let answer = look_once(rt, lock, &mut pass.holds[source as usize], need);
        wake_feeder(lock, answer);
        answer
    }

    /// The row that is needed of a source, where the pass remembers it.
    ///
    /// *Cost*: no turn, no memory.
    pub fn peek(&self, pass: &PoolPass, source: u32, need: Need) -> Option<Row>
        requires own { IsPassOf self.now pass.now }
        requires source { source < length self.now }
        ensures held { result ≡ row_held (hold_at pass.now source).remembered.rows need }
        ensures seen { IfSome result (λ row. said_in (hold_at pass.now source).pass.1.seen need ≡ Some (look.Row row)) }
    {
        pass.holds[source as usize].remembered.rows.row(need)
    }

    /// Asks a source for what a query comes to need of it, in one turn of the source's lock, for which it may wait. Where nothing is there yet, and
    /// there is room to ask for it, the source has the want of the row or the ask of the grade then; else nothing is asked. The pass waits for
    /// nothing, and no fail is told. Whether it is asked for: who serves the source may be woken then.
    ///
    /// *Cost*: one turn of the source's lock, and one `look_at` in it; no memory.
    pub fn prefetch(&self, rt: &impl Wait, pass: &mut PoolPass, source: u32, need: Need) -> bool
        requires own { IsPassOf self.now pass.old }
        requires source { source < length self.now }
        requires need { MayLookFor (hold_at pass.old source).pass.1 need }
        ensures own { IsPassOf self.now pass.new }
        ensures others { OthersStay source pass.old pass.new }
        ensures asks { AsksAhead need (hold_at pass.old source) (hold_at pass.new source) result }
        ensures within { IsWithin (hold_at pass.old source) → IsWithin (hold_at pass.new source) }
    {
        let lock = &self.locks[source as usize];
        let open = look_ahead(rt, lock, &mut pass.holds[source as usize], need);
        if open {
            lock.wanted().notify_all();
        }
        open
    }

    /// How often the feeder of a source brought news. Who is to sleep after a look reads it before that look.
    pub fn news(&self, source: u32) -> u64
        requires source { source < length self.now }
    {
        self.locks[source as usize].news().epoch()
    }

    /// Sleeps until the feeder of a source brings news once it has brought so many. May also return for no reason: who sleeps looks again.
    pub fn wait_for_news(&self, rt: &impl Wait, source: u32, seen: u64)
        requires source { source < length self.now }
    {
        self.locks[source as usize].news().wait(rt, seen);
    }

    /// How often something was wanted of a feeder. Who is to sleep after a turn reads it before that turn.
    pub fn wanted(&self, feeder: &Feeder) -> u64
        requires own { IsIdleOf self.now feeder.now }
    {
        self.locks[feeder.source() as usize].wanted().epoch()
    }

    /// Wakes all that wait for news of a feeder.
    pub fn wake_lookers(&self, feeder: &Feeder)
        requires own { IsIdleOf self.now feeder.now }
    {
        self.locks[feeder.source() as usize].news().notify_all();
    }

    /// Sleeps until something was wanted of a feeder since it had been wanted so often. May also return for no reason.
    pub fn wait_till_wanted(&self, rt: &impl Wait, feeder: &Feeder, wanted: u64)
        requires own { IsIdleOf self.now feeder.now }
    {
        self.locks[feeder.source() as usize]
            .wanted()
            .wait(rt, wanted);
    }

    /// Wakes all feeders that sleep.
    pub fn wake_feeders(&self) {
        for lock in self.locks.iter() {
            lock.wanted().notify_all();
        }
    }

    /// Splits a pass off, which gets one part of each source. It knows as much, did nothing yet, waits for nothing, and
    /// remembers nothing.
    ///
    /// *Cost*: one split of a pass for each source, and the memory of the new pass, with room for 256 rows of each source and 8 to 16 bytes for
    /// each of its objects, up to `MOST_GRADES` of them, which are first written to when a grade is remembered.
    pub fn split(&self, alloc: Global, pass: &mut PoolPass) -> Result<PoolPass, Memory>
        requires own { IsPassOf self.now pass.old }
        requires parts { MaySplit self.now pass.old }
        ensures kept { IsPassOf self.now pass.new }
        ensures given { IfOk result (IsPassOf self.now) }
        ensures ok { IfOk result (IsSplit self.now pass.old pass.new) }
        ensures err { OnErr result (pass.new ≡ pass.old) }
    {
        let Ok(mut holds) = Vec::with_capacity(alloc, self.locks.len()) else {
            return Err(Memory);
        };
        let mut made = make_all(alloc, &pass.holds)?;
        split_all(&self.locks, &mut pass.holds, &mut made, &mut holds);
        Ok(PoolPass { holds })
    }

    /// Makes one pass of two. Of each source it has the parts of both, knows what either does, was shown what both were, waits for
    /// nothing, and remembers nothing.
    ///
    /// *Cost*: one join of a pass for each source.
    pub fn join(&self, pass: &mut PoolPass, other: PoolPass)
        requires own { IsPassOf self.now pass.old }
        requires other { IsPassOf self.now other }
        ensures own { IsPassOf self.now pass.new }
        ensures joined { IsJoined self.now pass.old other pass.new }
    {
        let mut holds = other.into_holds();
        join_all(&self.locks, &mut pass.holds, &mut holds);
    }

    /// Waits for the feeder's turn, and takes the state of its source. Its log and its tally are those that the feeder knows.
    pub fn take(&self, rt: &impl Wait, feeder: &mut Feeder) -> SourceState
        requires own { IsIdleOf self.now feeder.old }
        ensures feeder { feeder.new ≡ in_turn (facts_of result) feeder.old }
        ensures state { KnowsOf (facts_of result) feeder.old.pass.1 }
        ensures all { HasAll (facts_of result) feeder.old.pass.1 }
    {
        let lock = &self.locks[feeder.source() as usize];
        feeder.take(rt, lock)
    }

    /// Gives a state in place of the one that was taken, and ends the feeder's turn. The log, the asks, the want and the tally go on from
    /// those that were taken.
    pub fn give(&self, feeder: &mut Feeder, state: SourceState)
        requires own { IsFeederOf self.now feeder.old }
        requires turn { IsSomeAnd feeder.old.pass.1.held (λ f. FactsGrow f (facts_of state)) }
        ensures { IfSome feeder.old.pass.1.held (λ f. feeder.new ≡ turned f (facts_of state) feeder.old) }
    {
        let lock = &self.locks[feeder.source() as usize];
        feeder.give(lock, state);
    }

    /// Takes the pool down, by a pass and the feeders that have all parts between them, and gives the closing states out, in the order of
    /// the sources. It takes no memory.
    ///
    /// *Cost*: one join and one `close` for each source. Takes no memory.
    pub fn close(self, pass: PoolPass, feeders: Feeders) -> States
        requires own { IsPassOf self pass }
        requires feeders { AreFeedersOf self feeders }
        requires whole { HaveAll self pass feeders }
        ensures { AreClosed self pass feeders result }
    {
        let Pool { locks, room } = self;
        States::from_vec(close_all(locks, pass.into_holds(), feeders.into_vec(), room))
    }
}
