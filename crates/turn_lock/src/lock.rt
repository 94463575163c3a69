ghost use Rattle.std.specs.Prelude.{◌≡◌, ◌<◌, false, [], ◌∷◌, None, Some, length, IfOk, IfErr, IfSome, IsSomeAnd};
ghost use Rattle.turn_lock.specs.Facts.{FactsGrow, AreFactsKept};
ghost use Rattle.turn_lock.specs.Known.{all_parts, KnowsOf, Follows, opened, holding, after_turn, without, split_off, joined};

use crate::logged::Logged;
use crate::notify::Notify;
use crate::pass::Pass;
use crate::rule::Turns;
use crate::seat;
use crate::view::View;
use atomic_table::{Refused, Table};
use std::alloc::{AllocFailed, Global};
use std::marker::Model;
use std::snapshot::Snapshot;
use std::sync::Wait;

/// A value that passes take and give in turn. To a contract it is the table that the lock stands on.
///
/// What a pass learned in its turns is how all that it will learn begins: the log, the asks and the tally only grow,
/// and the writer's turns alone add to the log and to the tally. Who asks first need not have its turn first: a turn
/// goes to a pass that runs when the lock is free, and who sleeps holds no place.
#[derive(Drop)]
pub struct TurnLock<V: Logged + Drop> {
    table: Table<Option<V>, View<V::Entry>, Snapshot<V>, Turns, Global>,
    /// The end of a turn notifies it, and who waits for a turn sleeps by it.
    free: Notify,
    /// The writer notifies it, and the others sleep by it.
    news: Notify,
    /// The others notify it, and the writer sleeps by it.
    wanted: Notify,
}

impl<V: Logged + Drop> Model for TurnLock<V> {
    ghost use Rattle.std.specs.Prelude.{◌≡◌};
    ghost use Rattle.atomic_table.specs.Seated.{TableId};

    ghost Value = { TableId };

    ghost view = { λ l. l.table.shared.table_id };

    ghost invariant = { λ l. (l.table.shared.table_id.words ≡ 3) × (l.table.shared.table_id.slots ≡ 1) };
}

impl<V: Logged + Send + Drop> TurnLock<V> {
    /// A lock round the value, with the pass that has all 2^32 parts and is the writer. Without memory the value
    /// comes back.
    pub fn open(alloc: Global, value: V) -> Result<(TurnLock<V>, Pass<V>), V>
        ensures ok { IfOk result (λ r. r.1 ≡ (r.0, opened (V.facts value))) }
        ensures err { IfErr result (λ v. v ≡ value) }
    {
        let entries = value.length();
        let opening = Snapshot::of(&value);
        let mut slots = Vec::new(alloc);
        match slots.push(Some(value)) {
            Ok(()) => TurnLock::on_table(alloc, entries, slots, &opening),
            Err(AllocFailed { value }) => Err(value.unwrap()),
        }
    }

    /// A lock round the value in the one slot, whose log has so many entries, with the first pass. Without memory the value comes back.
    fn on_table(
        alloc: Global,
        entries: u64,
        slots: Vec<Option<V>>,
        opening: &Snapshot<V>,
    ) -> Result<(TurnLock<V>, Pass<V>), V>
        requires entries { entries ≡ length (V.facts opening.now.value).log }
        requires slot { slots.items ≡ Some opening.now.value ∷ [] }
        ensures ok { IfOk result (λ r. r.1 ≡ (r.0, opened (V.facts opening.now.value))) }
        ensures err { IfErr result (λ v. v ≡ opening.now.value) }
    {
        match Table::new(alloc, &[0, 0, entries], slots, opening) {
            Ok((table, seat)) => {
                let lock = TurnLock {
                    table,
                    free: Notify::make(),
                    news: Notify::make(),
                    wanted: Notify::make(),
                };
                Ok((lock, Pass { seat }))
            }
            Err(Refused { mut slots }) => Err(slots.pop().unwrap().unwrap()),
        }
    }

    /// Waits until the lock is free, and takes the value. It begins with all that the pass has seen, and for the
    /// writer it has nothing more.
    pub fn take(&self, rt: &impl Wait, pass: &mut Pass<V>) -> V
        requires own { pass.old.0 ≡ self.now }
        requires rests { pass.old.1.held ≡ None }
        ensures pass { pass.new ≡ (self.now, holding (V.facts result) pass.old.1) }
        ensures value { KnowsOf (V.facts result) pass.old.1 }
    {
        seat::enter(rt, &self.table.shared, &self.free, &mut pass.seat)
    }

    /// Gives a value in place of the one that was taken, and ends the turn. Its log, its asks, its mark and its tally
    /// go on from those that were taken; the writer alone may change the log and the tally.
    pub fn give(&self, pass: &mut Pass<V>, value: V)
        requires own { pass.old.0 ≡ self.now }
        requires turn { IsSomeAnd pass.old.1.held (λ f. FactsGrow f (V.facts value) × (pass.old.1.writer ≡ false → AreFactsKept f (V.facts value))) }
        ensures { IfSome pass.old.1.held (λ f. pass.new ≡ (self.now, after_turn f (V.facts value) pass.old.1)) }
    {
        seat::leave(&self.table.shared, &self.free, &mut pass.seat, value);
    }

    /// What the writer notifies when a turn of its brought something, and what the others sleep by. Who looked in a turn, and found that
    /// what it needs isn't there, waits for the end of the epoch before that turn.
    pub fn news(&self) -> &Notify {
        &self.news
    }

    /// What the others notify when a turn of theirs left something to do, and what the writer sleeps by.
    pub fn wanted(&self) -> &Notify {
        &self.wanted
    }

    /// Splits a pass off, which gets so many of the parts. It knows as much, did nothing yet, and is no writer.
    pub fn split(&self, pass: &mut Pass<V>, parts: u64) -> Pass<V>
        requires own { pass.old.0 ≡ self.now }
        requires rests { pass.old.1.held ≡ None }
        requires room { (0 < parts) × (parts < pass.old.1.parts) }
        ensures kept { pass.new ≡ (self.now, without parts pass.old.1) }
        ensures given { result ≡ (self.now, split_off parts pass.old.1) }
    {
        let seat = seat::cut(&self.table.shared, &mut pass.seat, parts);
        Pass { seat }
    }

    /// Makes one pass of two. It knows what the writer of the two knows, else the most that either does, and it did
    /// what both did.
    pub fn join(&self, pass: &mut Pass<V>, other: Pass<V>)
        requires own { (pass.old.0 ≡ self.now) × (other.0 ≡ self.now) }
        requires rest { (pass.old.1.held ≡ None) × (other.1.held ≡ None) }
        ensures pass { pass.new ≡ (self.now, joined pass.old.1 other.1) }
        ensures follows { Follows pass.old.1 pass.new.1 × Follows other.1 pass.new.1 }
        ensures name { other.1.name ≡ pass.old.1.name }
    {
        let Pass { seat: other } = other;
        seat::glue(&self.table.shared, &mut pass.seat, other);
    }

    /// Takes the lock down, by the pass that has all parts, and gives the value out. What this pass did is all that
    /// was done.
    pub fn close(self, pass: Pass<V>) -> V
        requires own { pass.0 ≡ self }
        requires rests { pass.1.held ≡ None }
        requires whole { pass.1.parts ≡ all_parts }
        ensures { KnowsOf (V.facts result) pass.1 }
    {
        let TurnLock { table, .. } = self;
        let Pass { seat } = pass;
        let mut closed = table.close_with(seat);
        let slot = closed.take(0);
        closed.free();
        match slot {
            Some(value) => value,
            None => unreachable!(),
        }
    }
}
