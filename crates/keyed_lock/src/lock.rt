ghost use Rattle.std.specs.Prelude.{◌≡◌, ◌-◌, ◌<◌, ◌≤◌, ◌^◌, [], Some, None, map, length, IfOk, OnOk, OnErr, IfSome, IfNone, vec_len, vec_capacity, replicate};
ghost use Rattle.std.specs.Mem.Slots.{slots_items, slots_len};
ghost use Rattle.keyed_lock.specs.Rule.{HoldsAll};
ghost use Rattle.keyed_lock.specs.Hold.{all_parts, IsPassOf, KeepAll, opened, holding, with_parts, joined};

use crate::filling::{empty, fill};
use crate::lock_invariant::LockInvariant;
use crate::pass::Pass;
use crate::rule::Keyed;
use crate::seat;
use crate::view::View;
use atomic_table::{Closed, Refused, Table};
use std::alloc::{AllocError, Global};
use std::hint::spin_loop;
use std::marker::Model;
use std::snapshot::Snapshot;
use std::sync::Wait;
use turn_lock::Notify;

/// How often a pass looks whether a value was given back before it sleeps.
const LOOKS: u32 = 100;

/// Values at places from 0, each of which passes take and give, one pass at a time. To a contract it is the table that the
/// lock stands on, its key, and how many values there are.
///
/// Whenever a value is home it keeps its fact with the key and the place. Nothing is said of who has it next.
#[derive(Drop)]
pub struct KeyedLock<V: LockInvariant + Drop> {
    table: Table<Option<V>, View<V::Key>, V::Key, Keyed, Global>,
    /// Who gives a value back notifies those who wait for it at its place.
    notifies: Vec<Notify>,
}

impl<V: LockInvariant + Drop> Model for KeyedLock<V> {
    ghost use Rattle.std.specs.Prelude.{◌≡◌, ◌+◌, vec_len};
    ghost use Rattle.keyed_lock.specs.Hold.{Lock};

    ghost Value = { Lock V.Key };

    ghost view = { λ l. record { id = l.table.shared.table_id; key = l.table.shared.key; size = l.table.shared.table_id.slots } };

    ghost invariant = { λ l. (l.table.shared.table_id.words ≡ l.table.shared.table_id.slots + 1) × (vec_len l.notifies ≡ l.table.shared.table_id.slots) };
}

/// So many words, all 0.
fn make_words(alloc: Global, count: usize) -> Result<Vec<u64>, AllocError>
    ensures { IfOk result (λ words. words.items ≡ replicate count 0) }
{
    vec![in alloc; 0; count]
}

/// So many of them.
fn make_notifies(alloc: Global, count: usize) -> Result<Vec<Notify>, AllocError>
    ensures { IfOk result (λ notifies. vec_len notifies ≡ count) }
{
    let mut notifies = Vec::with_capacity(alloc, count)?;
    for made in 0..count {
        notifies.push_reserved(Notify::make());
    }
    Ok(notifies)
}

/// Takes the values out of the slots of a table that was closed, in their order.
fn take_out<V>(mut closed: Closed<Option<V>, Global>, room: &mut Vec<V>)
    requires full { HoldsAll closed }
    requires none { room.old.items ≡ [] }
    requires room { slots_len closed.slots ≤ vec_capacity room.old }
    ensures { slots_items closed.slots ≡ map Some room.new.items }
{
    for place in 0..closed.slot_count() {
        match closed.take(place) {
            Some(value) => room.push_reserved(value),
            None => unreachable!(),
        }
    }
    closed.free();
}

impl<V: LockInvariant + Send + Drop> KeyedLock<V> {
    /// A lock of the values, in their order, with the pass that has all 2^40 parts. The vector keeps its room. Without memory the values stay
    /// in it.
    pub fn open(
        alloc: Global,
        key: &V::Key,
        values: &mut Vec<V>,
    ) -> Result<(KeyedLock<V>, Pass<V>), AllocError>
        requires few { vec_len values.old < 2 ^ 32 }
        requires keep { KeepAll V.keeps key.now values.old.items }
        ensures ok { IfOk result (λ r. (r.0.key ≡ key.now) × (r.0.size ≡ length values.old.items) × (r.1 ≡ (r.0.id, opened key.now))) }
        ensures taken { OnOk result (values.new.items ≡ []) }
        ensures stay { OnErr result (values.new.items ≡ values.old.items) }
        ensures room { vec_capacity values.new ≡ vec_capacity values.old }
    {
        let count = values.len();
        let words = make_words(alloc, count + 1)?;
        let notifies = make_notifies(alloc, count)?;
        let mut slots = Vec::with_capacity(alloc, count)?;
        fill(values, &mut slots);
        match Table::new(alloc, words.as_slice(), slots, key) {
            Ok((table, seat)) => Ok((KeyedLock { table, notifies }, Pass { seat })),
            Err(Refused { slots }) => {
                empty(slots, values);
                Err(AllocError)
            }
        }
    }

    /// Takes the value at a place where no pass has it, and never waits.
    pub fn try_take(&self, pass: &mut Pass<V>, place: usize) -> Option<V>
        requires own { IsPassOf self.now pass.old }
        requires rests { pass.old.1.held ≡ None }
        requires place { place < self.now.size }
        ensures some { IfSome result (λ value. (pass.new ≡ (self.now.id, holding (Some place) pass.old.1)) × V.keeps self.now.key place value) }
        ensures none { IfNone result (pass.new ≡ pass.old) }
    {
        seat::grab(&self.table.shared, &mut pass.seat, place)
    }

    /// Waits until no pass has the value at a place, and takes it.
    pub fn take(&self, rt: &impl Wait, pass: &mut Pass<V>, place: usize) -> V
        requires own { IsPassOf self.now pass.old }
        requires rests { pass.old.1.held ≡ None }
        requires place { place < self.now.size }
        ensures pass { pass.new ≡ (self.now.id, holding (Some place) pass.old.1) }
        ensures value { V.keeps self.now.key place result }
    {
        for _ in rt.forever() {
            let given = self.given(place);
            if let Some(value) = self.try_take(pass, place) {
                return value;
            }
            self.sleep_till_given(rt, place, given);
        }
        unreachable!()
    }

    /// Gives the value at a place back, or another one that keeps the fact too, and wakes all that sleep until it is given.
    pub fn give(&self, pass: &mut Pass<V>, place: usize, value: V)
        requires own { IsPassOf self.now pass.old }
        requires held { pass.old.1.held ≡ Some place }
        requires place { place < self.now.size }
        requires value { V.keeps self.now.key place value }
        ensures { pass.new ≡ (self.now.id, holding None pass.old.1) }
    {
        seat::put(&self.table.shared, &mut pass.seat, place, value);
        self.notifies[place].notify_all();
    }

    /// How often the value at a place was given back. Who is to sleep where it is taken reads it before trying to take it.
    pub fn given(&self, place: usize) -> u64
        requires { place < self.now.size }
    {
        self.notifies[place].epoch()
    }

    /// Waits until the value at a place was given back since it had been so often: it looks for a while, and then sleeps. May also return
    /// for no reason.
    pub fn sleep_till_given(&self, rt: &impl Wait, place: usize, given: u64)
        requires { place < self.now.size }
    {
        for _ in 0..LOOKS {
            if self.given(place) != given {
                return;
            }
            spin_loop();
        }
        self.notifies[place].wait(rt, given);
    }

    /// Splits a pass off, which gets so many of the parts.
    pub fn split(&self, pass: &mut Pass<V>, parts: u64) -> Pass<V>
        requires own { IsPassOf self.now pass.old }
        requires rests { pass.old.1.held ≡ None }
        requires room { (0 < parts) × (parts < pass.old.1.parts) }
        ensures kept { pass.new ≡ (self.now.id, with_parts (pass.old.1.parts - parts) pass.old.1) }
        ensures given { result ≡ (self.now.id, with_parts parts pass.old.1) }
    {
        let seat = seat::cut(&self.table.shared, &mut pass.seat, parts);
        Pass { seat }
    }

    /// Makes one pass of two, with the parts of both.
    pub fn join(&self, pass: &mut Pass<V>, other: Pass<V>)
        requires own { IsPassOf self.now pass.old × IsPassOf self.now other }
        requires rest { (pass.old.1.held ≡ None) × (other.1.held ≡ None) }
        ensures { pass.new ≡ (self.now.id, joined pass.old.1 other.1) }
    {
        let Pass { seat: other } = other;
        seat::glue(&self.table.shared, &mut pass.seat, other);
    }

    /// Takes the lock down, by the pass that has all parts, and puts the values into a vector with room for them, in their order. It takes no
    /// memory.
    pub fn close(self, pass: Pass<V>, values: &mut Vec<V>)
        requires own { IsPassOf self pass }
        requires rests { pass.1.held ≡ None }
        requires whole { pass.1.parts ≡ all_parts }
        requires none { values.old.items ≡ [] }
        requires room { self.size ≤ vec_capacity values.old }
        ensures size { length values.new.items ≡ self.size }
        ensures keep { KeepAll V.keeps self.key values.new.items }
    {
        let KeyedLock { table, notifies } = self;
        drop(notifies);
        let Pass { seat } = pass;
        take_out(table.close_with(seat), values);
    }
}
