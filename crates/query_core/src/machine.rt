//! A machine of the algorithm that a query names.

ghost use Rattle.std.specs.Prelude.{◌≡◌, ◌<◌, false, IfOk};
ghost use Rattle.ranked_list.specs.declared.need.Need.{Need};
ghost use Rattle.monotone_fn.specs.Value.{value};
ghost use Rattle.machine_base.specs.Machine.{asked_of, MayBeNextRow, MayBeNextGrade, RowFed, GradeFed, IsInRange, IsNoGrade, IsSameLog};
ghost use Rattle.query_core.specs.Algorithms.{asks_grades};
ghost use Rattle.machine_base.specs.Certain.{Foresees};
ghost use Rattle.query_core.specs.Methods.{AnswersWith, IsNearWith, run_with};
ghost use Rattle.query_core.specs.OneAnswer.{HasTrueItems};
ghost use Rattle.query_core.specs.Ready.{IsReady};
ghost use Rattle.query_core.specs.Machines.{method_of, algorithm_of, state_of, MakesItsRun, IsMachineFor, IsLeftFor};

use super::Memory;
use super::making::{combined, fagins, no_random, restricted, threshold};
use super::ready::Ready;
use access_log::Transcript;
use ca_core::Ca;
use fa_core::Fa;
use machine_base::{Answer, CoreFault};
use nra_core::Nra;
use query_text::Algorithm;
use ranked_list::{Need, Row};
use restricted_core::Taz;
use std::alloc::Global;
use ta_core::{Halting, Ta};

/// A machine of the algorithm that a query names. It says which access it needs next, and is fed what
/// that access gave.
#[derive(Drop)]
pub enum Machine {
    /// Of the threshold algorithm, exact, within a factor or stopped early.
    Ta(Ta),
    /// Of the algorithm without random access.
    Nra(Nra),
    /// Of the combined algorithm.
    Ca(Ca),
    /// Of Fagin's algorithm.
    Fa(Fa),
    /// Of the threshold algorithm over the lists that can be read in order.
    Taz(Taz),
}

impl Machine {
    /// The machine of a query, with no access yet. The query's expression is copied. A query without
    /// costs pays 1 for each access, and one without a room may see all objects. No other call but
    /// `answer` takes memory.
    pub fn make(alloc: Global, ready: &Ready) -> Result<Machine, Memory>
        requires { IsReady ready.now }
        ensures begun { IfOk result (IsMachineFor ready.now) }
        ensures run { IfOk result MakesItsRun }
    {
        let Ok(expr) = ready.query.expr.copy(alloc) else {
            return Err(Memory);
        };
        match ready.query.algorithm {
            Algorithm::Ta => threshold(alloc, ready, expr, Halting::Exact),
            Algorithm::Nra => no_random(alloc, ready, expr),
            Algorithm::Ca => combined(alloc, ready, expr),
            Algorithm::Fa => fagins(alloc, ready, expr),
            Algorithm::Theta { p, q } => threshold(alloc, ready, expr, Halting::Within { p, q }),
            Algorithm::Early { depth } => threshold(alloc, ready, expr, Halting::Early { depth }),
            Algorithm::Taz => restricted(alloc, ready, expr),
        }
    }

    /// What is needed next. Where the algorithm makes no random accesses that is never a grade.
    pub fn need(&self) -> Need
        ensures need { result ≡ (state_of self.now).need }
        ensures run { MakesItsRun self.now }
        ensures range { IsInRange (state_of self.now).log result }
        ensures rows { asks_grades (algorithm_of self.now) ≡ false → IsNoGrade result }
    {
        match self {
            Machine::Ta(machine) => machine.need(),
            Machine::Nra(machine) => machine.need(),
            Machine::Ca(machine) => machine.need(),
            Machine::Fa(machine) => machine.need(),
            Machine::Taz(machine) => machine.need(),
        }
    }

    /// What is certain of a list: a row or a grade that the run of the algorithm asks it for on every table that agrees with the transcript;
    /// or nothing. Of `ta`, `theta` and `early` that is the row at the depth that is read, and after it the grade of the first seen object that
    /// misses it; of `nra` the row; of `ca` the row, the grade of the choice, or that of the first of the first k that misses it; of `fa` and
    /// `taz` nothing.
    pub fn certain_next(&self, list: u8) -> Need
        requires { list < (state_of self.now).log.lists }
        ensures certain { Foresees (run_with (method_of self.now)) (state_of self.now) list result }
        ensures left { IsLeftFor self.now list result }
    {
        match self {
            Machine::Ta(machine) => machine.certain_next(list),
            Machine::Nra(machine) => machine.certain_next(list),
            Machine::Ca(machine) => machine.certain_next(list),
            Machine::Fa(_) => Need::Done,
            Machine::Taz(_) => Need::Done,
        }
    }

    /// Tells the row that is needed. Where it is refused nothing has changed. Takes no memory.
    pub fn feed_row(&mut self, row: Row) -> Result<(), CoreFault>
        requires { MayBeNextRow (state_of self.old).log (state_of self.old).need row }
        ensures same { method_of self.new ≡ method_of self.old }
        ensures fed { RowFed row (state_of self.old) (state_of self.new) result }
        ensures run { MakesItsRun self.new }
    {
        match self {
            Machine::Ta(machine) => machine.feed_row(row),
            Machine::Nra(machine) => machine.feed_row(row),
            Machine::Ca(machine) => machine.feed_row(row),
            Machine::Fa(machine) => machine.feed_row(row),
            Machine::Taz(machine) => machine.feed_row(row),
        }
    }

    /// Tells the grade that is needed. Takes no memory.
    pub fn feed_grade(&mut self, grade: u32)
        requires { MayBeNextGrade (state_of self.old).log (state_of self.old).need grade }
        ensures same { method_of self.new ≡ method_of self.old }
        ensures fed { GradeFed grade (state_of self.old) (state_of self.new) }
        ensures run { MakesItsRun self.new }
    {
        match self {
            Machine::Ta(machine) => machine.feed_grade(grade),
            Machine::Nra(machine) => {
                // Serves the prover alone: `need` promises that `nra` never needs a grade.
                let _need = machine.need();
                unreachable!()
            }
            Machine::Ca(machine) => machine.feed_grade(grade),
            Machine::Fa(machine) => machine.feed_grade(grade),
            Machine::Taz(machine) => machine.feed_grade(grade),
        }
    }

    /// The accesses so far.
    pub fn transcript(&self) -> &Transcript
        ensures log { result.now ≡ (state_of self.now).log }
        ensures run { MakesItsRun self.now }
    {
        match self {
            Machine::Ta(machine) => machine.transcript(),
            Machine::Nra(machine) => machine.transcript(),
            Machine::Ca(machine) => machine.transcript(),
            Machine::Fa(machine) => machine.transcript(),
            Machine::Taz(machine) => machine.transcript(),
        }
    }

    /// The answer, once nothing is needed, with the transcript: it is as good as the method guarantees, a top k or within a
    /// factor, and the transcript is as near the best as the method promises. Its bounds are true on every table that agrees
    /// with the transcript.
    pub fn answer(self) -> Result<Answer, Memory>
        requires { (state_of self).need ≡ Need.Done }
        ensures run { MakesItsRun self }
        ensures items { IfOk result (λ answer. AnswersWith (method_of self) (state_of self) answer.items) }
        ensures transcript { IfOk result (λ answer. IsSameLog answer.transcript (state_of self).log) }
        ensures near { IfOk result (λ answer. IsNearWith (method_of self) (asked_of (state_of self))
            answer.transcript.lists answer.transcript.count answer.transcript.accesses) }
        ensures bounds { IfOk result (HasTrueItems (value (state_of self).expr)) }
    {
        match self {
            Machine::Ta(machine) => machine.answer(),
            Machine::Nra(machine) => machine.answer(),
            Machine::Ca(machine) => machine.answer(),
            Machine::Fa(machine) => machine.answer(),
            Machine::Taz(machine) => machine.answer(),
        }
    }

    /// Lets the machine go, before it has its answer. Who owns one lets it go by this call.
    pub fn let_go(self) {
        match self {
            Machine::Ta(machine) => machine.let_go(),
            Machine::Nra(machine) => machine.let_go(),
            Machine::Ca(machine) => machine.let_go(),
            Machine::Fa(machine) => machine.let_go(),
            Machine::Taz(machine) => machine.let_go(),
        }
    }
}
