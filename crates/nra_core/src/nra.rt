//! The machine of the algorithm without random access.

ghost use Rattle.std.specs.Prelude.{◌≡◌, ◌<◌, ◌≤◌};
ghost use Rattle.monotone_fn.specs.Value.{value};
ghost use Rattle.machine_base.specs.Base.{Holds};
ghost use Rattle.nra_core.specs.Quiet.{is_quiet_seen};
ghost use Rattle.nra_core.specs.LatePlaces.{KeepsLate};
ghost use Rattle.nra_core.specs.Place.{place_after};

use super::late::LateBounds;
use super::place::Place;
use access_log::{Access, Item, Items, Transcript};
use machine_base::{Answer, Base, CoreFault, Memory, Need};
use monotone_fn::{Costs, Expr};
use ranked_list::Row;
use std::alloc::Global;
use std::marker::Model;
use topk_base::MAX_OBJECTS;

/// The algorithm without random access on one query. It says which row it needs next, and is fed that
/// row. Contracts see it as a `MachineState`.
#[derive(Drop)]
pub struct Nra {
    base: Base,
    /// What is kept of the seen objects, whose bounds are renewed late.
    late: LateBounds,
    /// Room for the items of the answer.
    items: Vec<Item>,
    place: Place,
}

impl Model for Nra {
    ghost use Rattle.std.specs.Coded.{codes};
    ghost use Rattle.monotone_fn.specs.Code.{tree_code};
    ghost use Rattle.machine_base.specs.Machine.{MachineState};

    ghost Value = { MachineState };

    ghost coded = { Prim.hlevel (codes, tree_code) };

    ghost use Rattle.nra_core.specs.Place.{need_at};
    ghost use Rattle.machine_base.specs.Base.{shown};
    ghost use Rattle.std.specs.Prelude.{vec_capacity};
    ghost use Rattle.nra_core.specs.Kept.{Stands};

    ghost view = { λ a. shown a.base (need_at a.place) };

    ghost invariant = { λ a. Stands a.base a.late a.items.items (vec_capacity a.items) a.place };
}

impl Nra {
    ghost use Rattle.std.specs.Prelude.{◌≡◌, ◌≤◌, ◌<◌, [], IfOk, IsOk};
    ghost use Rattle.topk_theory.specs.Asked.{no_random_run};
    ghost use Rattle.machine_base.specs.Certain.{Foresees, left_of};
    ghost use Rattle.machine_base.specs.Machine.{IsBegun, IsInRange, IsNoGrade, MayBeNextRow, RowFed, IsSameLog};
    ghost use Rattle.nra_core.specs.Machine.{MakesItsRun, IsAnswer, HaveTrueBounds};

    /// A machine for the first `k` of `count` objects, that sees `room` of them at most. No other call
    /// takes memory.
    pub fn make(
        alloc: Global,
        expr: Expr,
        k: u32,
        count: u32,
        room: u32,
        costs: Costs,
    ) -> Result<Nra, Memory>
        requires asked { 1 ≤ k }
        requires fits { k ≤ count }
        requires counted { count ≤ MAX_OBJECTS }
        requires roomy { 1 ≤ room }
        ensures begun { IfOk result (IsBegun expr k count room costs) }
        ensures run { IfOk result MakesItsRun }
    {
        let Ok(items) = Vec::with_capacity(alloc, room.min(count) as usize) else {
            expr.let_go();
            return Err(Memory);
        };
        let Ok(late) = LateBounds::make(alloc, k, room.min(count)) else {
            expr.let_go();
            drop(items);
            return Err(Memory);
        };
        let Ok(base) = Base::make(alloc, expr, k, count, room, costs) else {
            drop(late);
            drop(items);
            return Err(Memory);
        };
        Ok(Nra {
            base,
            late,
            items,
            place: Place {
                list: 0,
                depth: 1,
                done: false,
            },
        })
    }

    /// What is needed next.
    pub fn need(&self) -> Need
        ensures need { result ≡ self.now.need }
        ensures run { MakesItsRun self.now }
        ensures range { IsInRange self.now.log result }
        ensures rows { IsNoGrade result }
    {
        self.place.need()
    }

    /// What is certain of a list, as the run makes it on every table that agrees with the transcript: the row there at the depth that is read,
    /// and nothing at the end.
    pub fn certain_next(&self, list: u8) -> Need
        requires { list < self.now.log.lists }
        ensures certain { Foresees no_random_run self.now list result }
        ensures left { result ≡ left_of self.now [] list }
    {
        if self.place.done {
            return Need::Done;
        }
        Need::Row {
            list,
            depth: self.place.depth,
        }
    }

    /// Tells the row that is needed. Where it is refused nothing has changed. Takes no memory.
    ///
    /// *Cost*: `Base::tell` and `LateBounds::note`, and at the last list of a depth `is_quiet`. Takes no memory.
    pub fn feed_row(&mut self, row: Row) -> Result<(), CoreFault>
        requires { MayBeNextRow self.old.log self.old.need row }
        ensures fed { RowFed row self.old self.new result }
        ensures run { MakesItsRun self.new }
    {
        self.base.test_room(row.object)?;
        self.base.tell(Access::Sorted {
            list: self.place.list,
            object: row.object,
            grade: row.grade,
        });
        self.late
            .note(&self.base.expr, &self.base.transcript, row.object);
        self.place = follow(&self.base, &mut self.late, self.place);
        Ok(())
    }

    /// The accesses so far.
    pub fn transcript(&self) -> &Transcript
        ensures log { result.now ≡ self.now.log }
        ensures run { MakesItsRun self.now }
    {
        &self.base.transcript
    }

    /// The answer, once nothing is needed: the first k seen objects by low falling, then by high
    /// falling, then by id rising, each with its bounds, and the transcript. Takes no memory.
    pub fn answer(self) -> Result<Answer, Memory>
        requires { self.need ≡ Need.Done }
        ensures run { MakesItsRun self }
        ensures succeeds { IsOk result }
        ensures items { IfOk result (λ answer. IsAnswer self answer.items) }
        ensures bounds { IfOk result (λ answer. HaveTrueBounds self answer.items) }
        ensures transcript { IfOk result (λ answer. IsSameLog answer.transcript self.log) }
    {
        let Nra {
            base,
            late,
            items,
            place: _,
        } = self;
        let mut items = items;
        late.first_items(&base.expr, &base.transcript, &mut items);
        drop(late);
        let items = Items::from_vec(items);
        Ok(Answer {
            items,
            transcript: base.into_transcript(),
        })
    }

    /// Lets the machine go, before it has its answer. Who owns one lets it go by this call.
    pub fn let_go(self) {
        let Nra {
            base,
            late,
            items,
            place: _,
        } = self;
        base.let_go();
        drop(late);
        drop(items);
    }
}

/// Where the run stands after a row that is told. After the row of the last list the run ends where at
/// least k objects were seen and no object outside the first k is viable; else the next depth begins.
fn follow(base: &Base, late: &mut LateBounds, place: Place) -> Place
    requires held { Holds base.now }
    requires late { KeepsLate base.now.expr base.now.transcript late.old }
    requires asked { late.old.k ≡ base.now.k }
    requires in_row { place.list < base.now.transcript.lists }
    requires deep { place.depth ≤ MAX_OBJECTS }
    ensures late { KeepsLate base.now.expr base.now.transcript late.new }
    ensures asked { late.new.k ≡ base.now.k }
    ensures room { late.new.first.room ≡ late.old.first.room }
    ensures place { result ≡ place_after base.now.transcript.lists
        (is_quiet_seen (value base.now.expr) base.now.k base.now.transcript.lists base.now.transcript.count base.now.transcript.accesses) place }
{
    if place.list + 1 < base.transcript.lists() {
        return Place {
            list: place.list + 1,
            ..place
        };
    }
    if late.is_quiet(&base.expr, &base.transcript) {
        return Place {
            done: true,
            ..place
        };
    }
    Place {
        list: 0,
        depth: place.depth + 1,
        done: false,
    }
}
