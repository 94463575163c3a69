//! The machine of the combined algorithm.

ghost use Rattle.std.specs.Prelude.{◌≡◌, ◌≤◌};
ghost use Rattle.topk_theory.specs.Combined.{phase_length};

use super::answering::answer_items;
use super::following::follow;
use super::foreseen::left;
use super::late_seen::LateSeen;
use super::stage::Stage;
use access_log::{Access, Item, Items, Transcript};
use machine_base::{Answer, Base, CoreFault, Memory, Need};
use monotone_fn::{Costs, Expr};
use ranked_list::Row;
use std::alloc::Global;
use std::marker::Model;
use topk_base::MAX_OBJECTS;

/// The combined algorithm on one query. It says which access it needs next, and is fed what that access gave.
/// Contracts see it as a `MachineState`.
#[derive(Drop)]
pub struct Ca {
    base: Base,
    /// How many depths come between two random phases.
    phase: u32,
    late: LateSeen,
    /// The first k, once all is quiet; none before.
    first: Vec<Item>,
    stage: Stage,
}

impl Model for Ca {
    ghost use Rattle.std.specs.Coded.{codes};
    ghost use Rattle.monotone_fn.specs.Code.{tree_code};
    ghost use Rattle.machine_base.specs.Machine.{MachineState};

    ghost Value = { MachineState };

    ghost coded = { Prim.hlevel (codes, tree_code) };

    ghost use Rattle.ca_core.specs.Course.{need_at};
    ghost use Rattle.machine_base.specs.Base.{shown};
    ghost use Rattle.std.specs.Prelude.{vec_capacity};
    ghost use Rattle.ca_core.specs.Kept.{Stands};

    ghost view = { λ a. shown a.base (need_at a.stage) };

    ghost invariant = { λ a. Stands a.base a.phase a.late a.first.items (vec_capacity a.first) a.stage };
}

/// How many depths come between two random phases: the whole part of what a random access costs in sorted ones, and
/// at least 1.
fn phase_length(costs: Costs) -> u32
    requires { 1 ≤ costs.sorted }
    ensures { result ≡ phase_length costs.sorted costs.random }
{
    (costs.random / costs.sorted).max(1)
}

impl Ca {
    ghost use Rattle.std.specs.Prelude.{◌≡◌, ◌≤◌, ◌<◌, IfOk, IsOk};
    ghost use Rattle.topk_theory.specs.Asked.{combined_run};
    ghost use Rattle.machine_base.specs.Certain.{Foresees};
    ghost use Rattle.machine_base.specs.Machine.{IsBegun, IsInRange, MayBeNextRow, MayBeNextGrade, RowFed, GradeFed, IsSameLog};
    ghost use Rattle.ca_core.specs.Machine.{MakesItsRun, IsAnswer, IsLeftOf};

    /// A machine for the first `k` of `count` objects, that sees `room` of them at most. No other call takes
    /// memory.
    pub fn make(
        alloc: Global,
        expr: Expr,
        k: u32,
        count: u32,
        room: u32,
        costs: Costs,
    ) -> Result<Ca, Memory>
        requires asked { 1 ≤ k }
        requires fits { k ≤ count }
        requires counted { count ≤ MAX_OBJECTS }
        requires roomy { 1 ≤ room }
        requires paid { 1 ≤ costs.sorted }
        ensures begun { IfOk result (IsBegun expr k count room costs) }
        ensures run { IfOk result MakesItsRun }
    {
        let Ok(first) = Vec::with_capacity(alloc, room.min(count) as usize) else {
            expr.let_go();
            return Err(Memory);
        };
        let Ok(late) = LateSeen::make(alloc, k, expr.lists(), room.min(count)) else {
            expr.let_go();
            drop(first);
            return Err(Memory);
        };
        let Ok(base) = Base::make(alloc, expr, k, count, room, costs) else {
            drop(late);
            drop(first);
            return Err(Memory);
        };
        Ok(Ca {
            base,
            phase: phase_length(costs),
            late,
            first,
            stage: Stage::Row { list: 0, depth: 1 },
        })
    }

    /// What is needed next.
    pub fn need(&self) -> Need
        ensures need { result ≡ self.now.need }
        ensures run { MakesItsRun self.now }
        ensures range { IsInRange self.now.log result }
    {
        self.stage.need()
    }

    /// What is certain of a list, as the run makes it on every table that agrees with the transcript: the row there at the depth that is read,
    /// the grade of the choice, or that of the first of the first k that misses it; and nothing where none does.
    pub fn certain_next(&self, list: u8) -> Need
        requires { list < self.now.log.lists }
        ensures certain { Foresees combined_run self.now list result }
        ensures left { IsLeftOf self.now list result }
    {
        left(&self.base.transcript, &self.first, self.stage, list)
    }

    /// Tells the row that is needed. Where it is refused nothing has changed. Takes no memory.
    ///
    /// *Cost*: `Base::tell`, a note of the object in two heaps, and at the end of a depth the walk of
    /// `LateBounds::is_quiet`, in a random phase `OpenHighs::choose`. Takes no memory.
    pub fn feed_row(&mut self, row: Row) -> Result<(), CoreFault>
        requires { MayBeNextRow self.old.log self.old.need row }
        ensures fed { RowFed row self.old self.new result }
        ensures run { MakesItsRun self.new }
    {
        let Need::Row { list, .. } = self.stage.need() else {
            unreachable!();
        };
        self.base.test_room(row.object)?;
        self.base.tell(Access::Sorted {
            list,
            object: row.object,
            grade: row.grade,
        });
        self.late.note(&self.base, row.object);
        self.stage = follow(
            &self.base,
            self.phase,
            &mut self.late,
            &mut self.first,
            self.stage,
        );
        Ok(())
    }

    /// Tells the grade that is needed. Takes no memory.
    pub fn feed_grade(&mut self, grade: u32)
        requires { MayBeNextGrade self.old.log self.old.need grade }
        ensures fed { GradeFed grade self.old self.new }
        ensures run { MakesItsRun self.new }
    {
        let Need::Grade { list, object } = self.stage.need() else {
            unreachable!();
        };
        self.base.tell(Access::Random {
            list,
            object,
            grade,
        });
        self.late.note(&self.base, object);
        self.stage = follow(
            &self.base,
            self.phase,
            &mut self.late,
            &mut self.first,
            self.stage,
        );
    }

    /// The accesses so far.
    pub fn transcript(&self) -> &Transcript
        ensures log { result.now ≡ self.now.log }
        ensures run { MakesItsRun self.now }
    {
        &self.base.transcript
    }

    /// The answer, once nothing is needed: the first k objects at its last depth, by aggregate falling, then by id
    /// rising, each with its aggregate as both bounds, and the transcript. Takes no memory.
    ///
    /// *Cost*: one evaluation for each of the k, and a sort of them in place.
    pub fn answer(self) -> Result<Answer, Memory>
        requires { self.need ≡ Need.Done }
        ensures run { MakesItsRun self }
        ensures succeeds { IsOk result }
        ensures items { IfOk result (λ answer. IsAnswer self answer.items) }
        ensures transcript { IfOk result (λ answer. IsSameLog answer.transcript self.log) }
    {
        let Ca {
            base,
            phase: _,
            late,
            first,
            stage: _,
        } = self;
        drop(late);
        let scored = answer_items(&base.expr, &base.transcript, first);
        let items = Items::from_vec(scored);
        Ok(Answer {
            items,
            transcript: base.into_transcript(),
        })
    }

    /// Lets the machine go, before it has its answer. Who owns one lets it go by this call.
    pub fn let_go(self) {
        let Ca {
            base,
            phase: _,
            late,
            first,
            stage: _,
        } = self;
        base.let_go();
        drop(late);
        drop(first);
    }
}
