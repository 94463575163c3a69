//! The machine of Fagin's algorithm.

ghost use Rattle.std.specs.Prelude.{◌≡◌, ◌≤◌};

use super::answering::first_items;
use super::following::{ask_on, common_after, follow_row};
use super::stage::Stage;
use access_log::{Access, Item, Items, Transcript};
use machine_base::{Answer, Base, CoreFault, Memory, Need};
use monotone_fn::{Costs, Expr};
use ranked_list::Row;
use std::alloc::Global;
use std::marker::Model;
use topk_base::MAX_OBJECTS;

/// Fagin's algorithm on one query. It says which access it needs next, and is fed what that access gave. Contracts see
/// it as a `MachineState`.
#[derive(Drop)]
pub struct Fa {
    base: Base,
    /// Room for the items of the seen objects.
    items: Vec<Item>,
    stage: Stage,
}

impl Model for Fa {
    ghost use Rattle.std.specs.Coded.{codes};
    ghost use Rattle.monotone_fn.specs.Code.{tree_code};
    ghost use Rattle.machine_base.specs.Machine.{MachineState};

    ghost Value = { MachineState };

    ghost coded = { Prim.hlevel (codes, tree_code) };

    ghost use Rattle.fa_core.specs.Course.{need_at};
    ghost use Rattle.machine_base.specs.Base.{shown};
    ghost use Rattle.std.specs.Prelude.{vec_capacity};
    ghost use Rattle.fa_core.specs.Kept.{Stands};

    ghost view = { λ a. shown a.base (need_at a.stage) };

    ghost invariant = { λ a. Stands a.base a.items.items (vec_capacity a.items) a.stage };
}

impl Fa {
    ghost use Rattle.std.specs.Prelude.{◌≡◌, ◌≤◌, IfOk, IsOk};
    ghost use Rattle.machine_base.specs.Machine.{IsBegun, IsInRange, MayBeNextRow, MayBeNextGrade, RowFed, GradeFed, IsSameLog};
    ghost use Rattle.fa_core.specs.Machine.{MakesItsRun, IsAnswer, ReadsNoShallower};

    /// A machine for the first `k` of `count` objects, that sees `room` of them at most. No other call takes
    /// memory.
    pub fn make(
        alloc: Global,
        expr: Expr,
        k: u32,
        count: u32,
        room: u32,
        costs: Costs,
    ) -> Result<Fa, Memory>
        requires asked { 1 ≤ k }
        requires fits { k ≤ count }
        requires counted { count ≤ MAX_OBJECTS }
        requires roomy { 1 ≤ room }
        ensures begun { IfOk result (IsBegun expr k count room costs) }
        ensures run { IfOk result MakesItsRun }
    {
        let Ok(items) = Vec::with_capacity(alloc, room.min(count) as usize) else {
            expr.let_go();
            return Err(Memory);
        };
        let Ok(base) = Base::make(alloc, expr, k, count, room, costs) else {
            drop(items);
            return Err(Memory);
        };
        Ok(Fa {
            base,
            items,
            stage: Stage::Row {
                list: 0,
                depth: 1,
                common: 0,
            },
        })
    }

    /// What is needed next.
    pub fn need(&self) -> Need
        ensures need { result ≡ self.now.need }
        ensures run { MakesItsRun self.now }
        ensures range { IsInRange self.now.log result }
    {
        self.stage.need()
    }

    /// Tells the row that is needed. Where it is refused nothing has changed. Takes no memory.
    ///
    /// *Cost*: `Base::tell` and a look at the object's grades; after the row at which the algorithm stops, a walk over the
    /// seen objects to the first with an unknown grade.
    pub fn feed_row(&mut self, row: Row) -> Result<(), CoreFault>
        requires { MayBeNextRow self.old.log self.old.need row }
        ensures fed { RowFed row self.old self.new result }
        ensures run { MakesItsRun self.new }
    {
        let Stage::Row {
            list,
            depth,
            common,
        } = self.stage
        else {
            unreachable!();
        };
        self.base.test_room(row.object)?;
        self.base.tell(Access::Sorted {
            list,
            object: row.object,
            grade: row.grade,
        });
        let common = common_after(&self.base, row.object, common);
        self.stage = follow_row(&self.base, list, depth, common);
        Ok(())
    }

    /// Tells the grade that is needed. Takes no memory.
    ///
    /// *Cost*: `Base::tell`, and a walk over the seen objects to the next with an unknown grade: one walk over all for all
    /// grades of a query.
    pub fn feed_grade(&mut self, grade: u32)
        requires { MayBeNextGrade self.old.log self.old.need grade }
        ensures fed { GradeFed grade self.old self.new }
        ensures run { MakesItsRun self.new }
    {
        let Stage::Asking(ask) = self.stage else {
            unreachable!();
        };
        self.base.tell(Access::Random {
            list: ask.list,
            object: ask.object,
            grade,
        });
        self.stage = ask_on(&self.base, ask.place);
    }

    /// The accesses so far.
    pub fn transcript(&self) -> &Transcript
        ensures log { result.now ≡ self.now.log }
        ensures run { MakesItsRun self.now }
    {
        &self.base.transcript
    }

    /// The answer, once nothing is needed: the first k of the seen objects, by aggregate falling, then by id rising, each
    /// with its aggregate as both bounds, and the transcript, which reads no less deep than the threshold algorithm. Takes
    /// no memory.
    ///
    /// *Cost*: one evaluation for each seen object, and a sort of them in place.
    pub fn answer(self) -> Result<Answer, Memory>
        requires { self.need ≡ Need.Done }
        ensures run { MakesItsRun self }
        ensures succeeds { IsOk result }
        ensures items { IfOk result (λ answer. IsAnswer self answer.items) }
        ensures depth { ReadsNoShallower self }
        ensures transcript { IfOk result (λ answer. IsSameLog answer.transcript self.log) }
    {
        let Fa {
            base,
            items,
            stage: _,
        } = self;
        let first = first_items(&base.expr, &base.transcript, base.k, items);
        let items = Items::from_vec(first);
        Ok(Answer {
            items,
            transcript: base.into_transcript(),
        })
    }

    /// Lets the machine go, before it has its answer. Who owns one lets it go by this call.
    pub fn let_go(self) {
        let Fa {
            base,
            items,
            stage: _,
        } = self;
        base.let_go();
        drop(items);
    }
}
