//! A query that takes turns.

ghost use Rattle.std.specs.Prelude.{◌≡◌, true, false, None, All, IfOk};
ghost use Rattle.source_state.specs.State.{IsSound};
ghost use Rattle.query_core.specs.Machines.{method_of, state_of, MakesItsRun};
ghost use Rattle.query_core.specs.Ready.{IsReady};
ghost use Rattle.query_run.specs.Inquiries.{needed, list_needed, is_done, is_ended};
ghost use Rattle.query_run.specs.Turns.{MayFeed, Answers, Turns};
ghost use Rattle.query_run.specs.Kept.{IsServed};
ghost use Rattle.query_run.specs.Made.{IsFresh};
ghost use Rattle.query_run.specs.Endings.{IsRefusedEnding, EndsAs};

use super::Memory;
use super::ended::{Ended, Refusal};
use query_core::{Machine, Ready};
use ranked_list::Need;
use source_state::{Look, SourceState, Tally, Waiting, look_at};
use std::alloc::Global;

/// A query as it stands: the numbers of the sources of its lists, its machine with the transcript, what it waits for, and why it is
/// refused, if it is.
#[derive(Drop)]
pub struct RunningQuery {
    pub sources: Vec<u32>,
    pub machine: Machine,
    pub waiting: Waiting,
    pub refusal: Option<Refusal>,
}

/// The list of a need, 0 where there is none.
pub fn list_needed(need: Need) -> u8
    ensures { result ≡ list_needed need }
{
    match need {
        Need::Row { list, .. } | Need::Grade { list, .. } => list,
        Need::Done => 0,
    }
}

/// Whether nothing is needed.
pub(crate) fn is_done(need: Need) -> bool
    ensures { result ≡ is_done need }
{
    match need {
        Need::Row { .. } | Need::Grade { .. } => false,
        Need::Done => true,
    }
}

/// Nothing is waited for.
fn no_waiting() -> Waiting
    ensures { result.need ≡ None }
{
    Waiting {
        need: None,
        noted: Tally {
            failed: 0,
            garbled: 0,
            memory: 0,
        },
    }
}

/// The ending of a query that is refused.
fn refused(refusal: Refusal) -> Ended
    ensures { IsRefusedEnding refusal result }
{
    match refusal {
        Refusal::Core { fault } => Ended::Core { fault },
        Refusal::Look { list, fault } => Ended::Look { list, fault },
    }
}

/// One turn of a query that hasn't ended: a look at the source of what it needs, and what it makes of the answer.
pub fn turn(states: &mut Vec<SourceState>, query: &mut RunningQuery)
    requires served { IsServed states.old.items query.old }
    requires going { is_ended query.old ≡ false }
    requires sound { All IsSound states.old.items }
    ensures { Turns states.old.items states.new.items query.old query.new }
{
    let need = query.machine.need();
    let list = list_needed(need);
    let source = query.sources[usize::from(list)];
    let look = look_at(&mut states[source as usize], &mut query.waiting, need);
    query.answer(list, look);
}

/// Lets queries go, before they have ended or after. Who owns some lets them go by this call, so that it is proved once.
pub fn let_go(queries: Vec<RunningQuery>) {
    drop(queries);
}

impl RunningQuery {
    /// A query that is ready, before any access. Its expression and the numbers of its sources are copied.
    pub fn make(alloc: Global, ready: &Ready) -> Result<RunningQuery, Memory>
        requires { IsReady ready.now }
        ensures { IfOk result (IsFresh ready.now) }
    {
        let Ok(sources) = ready.sources.clone() else {
            return Err(Memory);
        };
        match Machine::make(alloc, ready) {
            Ok(machine) => Ok(RunningQuery {
                sources,
                machine,
                waiting: no_waiting(),
                refusal: None,
            }),
            Err(_) => Err(Memory),
        }
    }

    /// Whether it is refused or needs nothing more.
    pub fn is_ended(&self) -> bool
        ensures { result ≡ is_ended self.now }
    {
        self.refusal.is_some() || is_done(self.machine.need())
    }

    /// What it makes of the answer of a look for what it needs of a list. Takes no memory.
    pub fn answer(&mut self, list: u8, look: Look)
        requires may { MayFeed (state_of self.old.machine) look }
        requires list { list ≡ list_needed (needed self.old) }
        requires going { self.old.refusal ≡ None }
        ensures answers { Answers self.old self.new look }
        ensures run { MakesItsRun self.new.machine }
        ensures same { method_of self.new.machine ≡ method_of self.old.machine }
        ensures sources { self.new.sources.items ≡ self.old.sources.items }
        ensures waiting { self.new.waiting ≡ self.old.waiting }
    {
        // Serves the prover alone: `need` promises that the machine makes its run, also where it isn't fed.
        let _need = self.machine.need();
        match look {
            Look::Row(row) => {
                if let Err(fault) = self.machine.feed_row(row) {
                    self.refusal = Some(Refusal::Core { fault });
                }
            }
            Look::Grade(grade) => self.machine.feed_grade(grade),
            Look::NotYet => {}
            Look::Fault(fault) => self.refusal = Some(Refusal::Look { list, fault }),
        }
    }

    /// How it ends, once it is refused or needs nothing more.
    pub fn end(self) -> Result<Ended, Memory>
        requires { is_ended self ≡ true }
        ensures { IfOk result (EndsAs self) }
    {
        let RunningQuery {
            sources,
            machine,
            refusal,
            ..
        } = self;
        drop(sources);
        match refusal {
            None => match machine.answer() {
                Ok(answer) => Ok(Ended::Answered(answer)),
                Err(_) => Err(Memory),
            },
            Some(refusal) => {
                drop(machine);
                Ok(refused(refusal))
            }
        }
    }
}
