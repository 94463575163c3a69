//! The machine of the threshold algorithm, whatever its rule of halting.

use super::following::{follow, score};
use super::halting::Halting;
use super::progress::Progress;
use access_log::{Access, Transcript};
use machine_base::{Answer, Base, Board, CoreFault, Memory, Need, first_unknown};
use monotone_fn::{Costs, Expr};
use ranked_list::Row;
use std::alloc::Global;
use std::marker::Model;
use topk_base::MAX_OBJECTS;

/// The threshold algorithm on one query: exact, within a factor or stopped early, by its rule of halting. It says which access it needs
/// next, and is fed what that access gave. Contracts see it as a `ThresholdState`.
#[derive(Drop)]
pub struct Ta {
    halting: Halting,
    base: Base,
    board: Board,
    progress: Progress,
}

impl Model for Ta {
    ghost use Rattle.std.specs.Coded.{codes};
    ghost use Rattle.monotone_fn.specs.Code.{tree_code};
    ghost use Rattle.ta_core.specs.Machine.{ThresholdState};

    ghost Value = { ThresholdState };

    ghost coded = { Prim.hlevel (codes, tree_code) };

    ghost use Rattle.ta_core.specs.Reading.{need_at};
    ghost use Rattle.ta_core.specs.Shown.{reading_of};
    ghost use Rattle.machine_base.specs.Base.{shown};
    ghost use Rattle.ta_core.specs.Kept.{Stands};

    ghost view = { λ a. record { state = shown a.base (need_at a.base.transcript.lists (reading_of a.progress)); halting = a.halting } };

    ghost invariant = { λ a. Stands a.halting a.base a.board (reading_of a.progress) };
}

impl Ta {
    ghost use Rattle.std.specs.Prelude.{◌≡◌, ◌≤◌, ◌<◌, IfOk};
    ghost use Rattle.machine_base.specs.Machine.{IsBegun, IsInRange, MayBeNextRow, MayBeNextGrade, RowFed, GradeFed, IsSameLog};
    ghost use Rattle.machine_base.specs.Certain.{Foresees};
    ghost use Rattle.ta_core.specs.Certain.{left_of_seen};
    ghost use Rattle.ta_core.specs.Halting.{IsFair};
    ghost use Rattle.ta_core.specs.Machine.{run_halting, MakesItsRun, IsAnswer};

    /// A machine for the first `k` of `count` objects that halts by a rule, and sees `room` of them at most. No other call
    /// but `answer` takes memory.
    pub fn make(
        alloc: Global,
        expr: Expr,
        k: u32,
        count: u32,
        room: u32,
        costs: Costs,
        halting: Halting,
    ) -> Result<Ta, Memory>
        requires asked { 1 ≤ k }
        requires fits { k ≤ count }
        requires counted { count ≤ MAX_OBJECTS }
        requires roomy { 1 ≤ room }
        requires fair { IsFair halting }
        ensures begun { IfOk result (λ machine. IsBegun expr k count room costs machine.state) }
        ensures rule { IfOk result (λ machine. machine.halting ≡ halting) }
        ensures run { IfOk result MakesItsRun }
    {
        let Ok(board) = Board::make(alloc, k, room.min(count)) else {
            expr.let_go();
            return Err(Memory);
        };
        let Ok(base) = Base::make(alloc, expr, k, count, room, costs) else {
            board.let_go();
            return Err(Memory);
        };
        Ok(Ta {
            halting,
            base,
            board,
            progress: Progress::at(1),
        })
    }

    /// What is needed next.
    pub fn need(&self) -> Need
        ensures need { result ≡ self.now.state.need }
        ensures run { MakesItsRun self.now }
        ensures range { IsInRange self.now.state.log result }
    {
        self.progress.need(self.base.transcript.lists())
    }

    /// What is certain of a list, as the run makes it on every table that agrees with the transcript: the row there at the depth that is read,
    /// after the row the grade of the first seen object that misses it, and nothing where none does.
    ///
    /// *Cost*: a look at each object that waits.
    pub fn certain_next(&self, list: u8) -> Need
        requires { list < self.now.state.log.lists }
        ensures certain { Foresees (run_halting self.now.halting) self.now.state list result }
        ensures left { result ≡ left_of_seen self.now.state list }
    {
        match self.need() {
            Need::Row { depth, .. } => Need::Row { list, depth },
            Need::Grade { .. } => {
                let waiting = self.progress.waiting.as_slice();
                first_unknown(&self.base.transcript, waiting, 0, list)
            }
            Need::Done => Need::Done,
        }
    }

    /// Tells the row that is needed. Where it is refused nothing has changed. Takes no memory.
    ///
    /// *Cost*: `Base::tell`, and one `Board::put` for an object. Takes no memory.
    pub fn feed_row(&mut self, row: Row) -> Result<(), CoreFault>
        requires { MayBeNextRow self.old.state.log self.old.state.need row }
        ensures fed { RowFed row self.old.state self.new.state result }
        ensures rule { self.new.halting ≡ self.old.halting }
        ensures run { MakesItsRun self.new }
    {
        let is_new = self.base.test_room(row.object)?;
        self.base.tell(Access::Sorted {
            list: self.progress.objects.len() as u8,
            object: row.object,
            grade: row.grade,
        });
        self.progress
            .add_row(self.base.transcript.lists(), row, is_new);
        score(&self.base, &mut self.board, &self.progress);
        follow(self.halting, &self.base, &self.board, &mut self.progress);
        Ok(())
    }

    /// Tells the grade that is needed. Takes no memory.
    ///
    /// *Cost*: `Base::tell`, and one `Board::put` for an object. Takes no memory.
    pub fn feed_grade(&mut self, grade: u32)
        requires { MayBeNextGrade self.old.state.log self.old.state.need grade }
        ensures fed { GradeFed grade self.old.state self.new.state }
        ensures rule { self.new.halting ≡ self.old.halting }
        ensures run { MakesItsRun self.new }
    {
        self.base.tell(Access::Random {
            list: self.progress.grades.len() as u8,
            object: self.progress.waiting[0],
            grade,
        });
        self.progress.add_grade(grade);
        score(&self.base, &mut self.board, &self.progress);
        follow(self.halting, &self.base, &self.board, &mut self.progress);
    }

    /// The accesses so far.
    pub fn transcript(&self) -> &Transcript
        ensures log { result.now ≡ self.now.state.log }
        ensures run { MakesItsRun self.now }
    {
        &self.base.transcript
    }

    /// The answer, once nothing is needed: the first k of the seen objects by aggregate falling, then by id rising, each with its aggregate as
    /// both bounds, and the transcript. On every table that agrees with that they are a top k; within a factor, no aggregate outside is more
    /// than the factor times one inside; and stopped early, no more than the guaranteed factor (`early_guarantee` of the transcript and these
    /// objects) times one inside.
    pub fn answer(self) -> Result<Answer, Memory>
        requires { self.state.need ≡ Need.Done }
        ensures run { MakesItsRun self }
        ensures items { IfOk result (λ answer. IsAnswer self answer.items) }
        ensures transcript { IfOk result (λ answer. IsSameLog answer.transcript self.state.log) }
    {
        let Ta {
            halting: _,
            base,
            board,
            progress: _,
        } = self;
        let transcript = base.into_transcript();
        match board.first() {
            Ok(items) => Ok(Answer { items, transcript }),
            Err(_) => {
                transcript.let_go();
                Err(Memory)
            }
        }
    }

    /// Lets the machine go, before it has its answer. Who owns one lets it go by this call.
    pub fn let_go(self) {
        let Ta {
            halting: _,
            base,
            board,
            progress: _,
        } = self;
        base.let_go();
        board.let_go();
    }
}
