//! The machine of the threshold algorithm over restricted lists.

use super::following::{ask_or_end, follow_row};
use super::sorted_lists::next_sorted;
use super::stage::Stage;
use access_log::{Access, Transcript};
use machine_base::{Answer, Base, Board, CoreFault, Memory, Need};
use monotone_fn::{Costs, Expr};
use ranked_list::Row;
use std::alloc::Global;
use std::marker::Model;
use topk_base::MAX_OBJECTS;

/// The threshold algorithm over lists of which some can't be read in order, on one query. It says which access it needs next, and
/// is fed what that access gave. Contracts see it as a `RestrictedState`.
#[derive(Drop)]
pub struct Taz {
    base: Base,
    board: Board,
    /// Of each list, whether it can be read in order.
    sorted: Vec<bool>,
    stage: Stage,
}

impl Model for Taz {
    ghost use Rattle.std.specs.Coded.{codes};
    ghost use Rattle.monotone_fn.specs.Code.{tree_code};
    ghost use Rattle.restricted_core.specs.Machine.{RestrictedState};

    ghost Value = { RestrictedState };

    ghost coded = { Prim.hlevel (codes, tree_code) };

    ghost use Rattle.restricted_core.specs.Course.{need_at};
    ghost use Rattle.machine_base.specs.Base.{shown};
    ghost use Rattle.restricted_core.specs.Kept.{Stands};

    ghost view = { λ a. record { state = shown a.base (need_at a.stage); sorted = a.sorted.items } };

    ghost invariant = { λ a. Stands a.base a.sorted.items a.board a.stage };
}

impl Taz {
    ghost use Rattle.std.specs.Prelude.{◌≡◌, ◌≤◌, true, length, Contains, IfOk};
    ghost use Rattle.monotone_fn.specs.Shape.{list_count};
    ghost use Rattle.machine_base.specs.Machine.{IsBegun, IsInRange, MayBeNextRow, MayBeNextGrade, RowFed, GradeFed, IsSameLog};
    ghost use Rattle.restricted_core.specs.Machine.{MakesItsRun, IsAnswer, ReadsNearBest};

    /// A machine for the first `k` of `count` objects, that sees `room` of them at most; `sorted` tells of each list whether it
    /// can be read in order, and some can. No other call but `answer` takes memory.
    #[tactic(auto, using(crate::proofs::Steps::not_all_closed))]
    pub fn make(
        alloc: Global,
        expr: Expr,
        k: u32,
        count: u32,
        room: u32,
        costs: Costs,
        sorted: &[bool],
    ) -> Result<Taz, Memory>
        requires asked { 1 ≤ k }
        requires fits { k ≤ count }
        requires counted { count ≤ MAX_OBJECTS }
        requires roomy { 1 ≤ room }
        requires one_each { length sorted.now ≡ list_count expr }
        requires some { Contains sorted.now true }
        ensures begun { IfOk result (λ machine. IsBegun expr k count room costs machine.state) }
        ensures lists { IfOk result (λ machine. machine.sorted ≡ sorted.now) }
        ensures run { IfOk result MakesItsRun }
    {
        let Some(list) = next_sorted(sorted, 0) else {
            unreachable!();
        };
        let Ok(sorted) = Vec::from_slice(alloc, sorted) else {
            expr.let_go();
            return Err(Memory);
        };
        let Ok(board) = Board::make(alloc, k, room.min(count)) else {
            expr.let_go();
            drop(sorted);
            return Err(Memory);
        };
        let Ok(base) = Base::make(alloc, expr, k, count, room, costs) else {
            board.let_go();
            drop(sorted);
            return Err(Memory);
        };
        Ok(Taz {
            base,
            board,
            sorted,
            stage: Stage::Row {
                list,
                depth: 1,
                whole: 0,
            },
        })
    }

    /// What is needed next.
    pub fn need(&self) -> Need
        ensures need { result ≡ self.now.state.need }
        ensures run { MakesItsRun self.now }
        ensures range { IsInRange self.now.state.log result }
    {
        self.stage.need()
    }

    /// Tells the row that is needed. Where it is refused nothing has changed. Takes no memory.
    ///
    /// *Cost*: `Base::tell`; after the last row of a depth also a walk over its new objects to the first with an unknown grade.
    pub fn feed_row(&mut self, row: Row) -> Result<(), CoreFault>
        requires { MayBeNextRow self.old.state.log self.old.state.need row }
        ensures fed { RowFed row self.old.state self.new.state result }
        ensures lists { self.new.sorted ≡ self.old.sorted }
        ensures run { MakesItsRun self.new }
    {
        let Stage::Row { list, depth, whole } = self.stage else {
            unreachable!();
        };
        self.base.test_room(row.object)?;
        self.base.tell(Access::Sorted {
            list,
            object: row.object,
            grade: row.grade,
        });
        let sorted = self.sorted.as_slice();
        self.stage = follow_row(&self.base, &mut self.board, sorted, list, depth, whole);
        Ok(())
    }

    /// Tells the grade that is needed. Takes no memory.
    ///
    /// *Cost*: `Base::tell`, and a walk over the new objects of the depth to the next with an unknown grade: one walk over them
    /// for all their grades. After the last grade of a depth each of them is evaluated and put on the board, and the threshold
    /// evaluated.
    pub fn feed_grade(&mut self, grade: u32)
        requires { MayBeNextGrade self.old.state.log self.old.state.need grade }
        ensures fed { GradeFed grade self.old.state self.new.state }
        ensures lists { self.new.sorted ≡ self.old.sorted }
        ensures run { MakesItsRun self.new }
    {
        let Stage::Asking { ask, depth, whole } = self.stage else {
            unreachable!();
        };
        self.base.tell(Access::Random {
            list: ask.list,
            object: ask.object,
            grade,
        });
        let sorted = self.sorted.as_slice();
        self.stage = ask_or_end(&self.base, &mut self.board, sorted, depth, whole, ask.place);
    }

    /// The accesses so far.
    pub fn transcript(&self) -> &Transcript
        ensures log { result.now ≡ self.now.state.log }
        ensures run { MakesItsRun self.now }
    {
        &self.base.transcript
    }

    /// The answer, once nothing is needed: the first k of the seen objects, by aggregate falling, then by id rising, each with its
    /// aggregate as both bounds, and the transcript, which is near the best that reads no other lists in order.
    ///
    /// *Cost*: `Board::first`.
    pub fn answer(self) -> Result<Answer, Memory>
        requires { self.state.need ≡ Need.Done }
        ensures run { MakesItsRun self }
        ensures items { IfOk result (λ answer. IsAnswer self answer.items) }
        ensures near { ReadsNearBest self }
        ensures transcript { IfOk result (λ answer. IsSameLog answer.transcript self.state.log) }
    {
        let Taz {
            base,
            board,
            sorted,
            stage: _,
        } = self;
        drop(sorted);
        let transcript = base.into_transcript();
        match board.first() {
            Ok(items) => Ok(Answer { items, transcript }),
            Err(_) => {
                transcript.let_go();
                Err(Memory)
            }
        }
    }

    /// Lets the machine go, before it has its answer. Who owns one lets it go by this call.
    pub fn let_go(self) {
        let Taz {
            base,
            board,
            sorted,
            stage: _,
        } = self;
        base.let_go();
        board.let_go();
        drop(sorted);
    }
}
