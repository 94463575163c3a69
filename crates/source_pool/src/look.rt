//! A look at one source.

ghost use Rattle.std.specs.Prelude.{◌≡◌, ◌<◌, None};
ghost use Rattle.source_pool.specs.Holds.{IsFree};
ghost use Rattle.source_pool.specs.Looks.{MayLookFor, Answers, Waits, shown_fault, shown_by, KnowsOn, IsTurn, IsLook, AsksAhead, IsWithin};
ghost use Rattle.source_state.specs.Events.{counted};
ghost use Rattle.source_state.specs.State.{IsSound};
ghost use Rattle.source_pool.specs.Seen.{state_seen};
ghost use Rattle.source_pool.specs.Windows.{row_held};
ghost use Rattle.source_pool.specs.Remembering.{Remembers};

use super::hold::{Hold, NO_WAITING};
use ranked_list::Need;
use source_api::FailKind;
use source_state::{Look, LookFault, SourceState, Tally, look_at};
use std::sync::Wait;
use turn_lock::TurnLock;

/// One more fail of a kind.
fn count_one(what: FailKind, shown: Tally) -> Tally
    ensures { result ≡ counted what shown }
{
    match what {
        FailKind::Failed => Tally {
            failed: shown.failed.saturating_add(1),
            ..shown
        },
        FailKind::Garbled => Tally {
            garbled: shown.garbled.saturating_add(1),
            ..shown
        },
        FailKind::Memory => Tally {
            memory: shown.memory.saturating_add(1),
            ..shown
        },
    }
}

/// What was shown, with one more where a fail is told.
fn shown_fault(fault: LookFault, shown: Tally) -> Tally
    ensures { result ≡ shown_fault fault shown }
{
    match fault {
        LookFault::Call(what) => count_one(what, shown),
        LookFault::Source(_) | LookFault::Missing { .. } | LookFault::AsksFull { .. } => shown,
    }
}

/// What was shown after a look.
fn shown_by(answer: Look, shown: Tally) -> Tally
    ensures { result ≡ shown_by answer shown }
{
    match answer {
        Look::Fault(fault) => shown_fault(fault, shown),
        Look::Row(_) | Look::Grade(_) | Look::NotYet => shown,
    }
}

/// Looks for a need in one turn, and remembers the row that is there, or the grade where it wasn't waited for.
fn look_in_turn(rt: &impl Wait, lock: &TurnLock<SourceState>, hold: &mut Hold, need: Need) -> Look
    requires own { IsFree lock.now hold.old.pass }
    requires need { MayLookFor hold.old.pass.1 need }
    requires unheld { row_held hold.old.remembered.rows need ≡ None }
    requires remembers { Remembers hold.old.pass.1.seen hold.old.remembered }
    ensures own { IsFree lock.now hold.new.pass }
    ensures sound { IsSound (state_seen hold.new.pass.1) }
    ensures remembers { Remembers hold.new.pass.1.seen hold.new.remembered }
    ensures look { IsTurn need hold.old hold.new result }
    ensures answer { Answers need hold.old hold.new result }
    ensures waits { Waits need hold.old hold.new result }
    ensures shown { hold.new.shown ≡ shown_by result hold.old.shown }
    ensures knows { KnowsOn hold.old.pass.1 hold.new.pass.1 }
    ensures within { IsWithin hold.old → IsWithin hold.new }
{
    let mut state = lock.take(rt, &mut hold.pass);
    // Serves the prover alone: `count` promises that the state is sound.
    let _ = state.count();
    let waited = hold.waiting.need.is_some();
    let answer = look_at(&mut state, &mut hold.waiting, need);
    hold.remembered.keep(&state, need, answer, waited);
    lock.give(&mut hold.pass, state);
    hold.shown = shown_by(answer, hold.shown);
    answer
}

/// Asks for a need to come, in one turn: where nothing is there yet, and there is room to ask for it, the state has the want or the ask of it then.
/// The pass waits for nothing. Whether it is asked for.
pub fn look_ahead(rt: &impl Wait, lock: &TurnLock<SourceState>, hold: &mut Hold, need: Need) -> bool
    requires own { IsFree lock.now hold.old.pass }
    requires need { MayLookFor hold.old.pass.1 need }
    requires remembers { Remembers hold.old.pass.1.seen hold.old.remembered }
    ensures own { IsFree lock.now hold.new.pass }
    ensures sound { IsSound (state_seen hold.new.pass.1) }
    ensures remembers { Remembers hold.new.pass.1.seen hold.new.remembered }
    ensures asks { AsksAhead need hold.old hold.new result }
    ensures within { IsWithin hold.old → IsWithin hold.new }
{
    let mut state = lock.take(rt, &mut hold.pass);
    // Serves the prover alone: `count` promises that the state is sound.
    let _ = state.count();
    let mut waiting = NO_WAITING;
    let answer = look_at(&mut state, &mut waiting, need);
    lock.give(&mut hold.pass, state);
    answer == Look::NotYet
}

/// Looks for a need: what is remembered answers it, else one turn is taken.
pub fn look_once(rt: &impl Wait, lock: &TurnLock<SourceState>, hold: &mut Hold, need: Need) -> Look
    requires own { IsFree lock.now hold.old.pass }
    requires need { MayLookFor hold.old.pass.1 need }
    requires sound { IsSound (state_seen hold.old.pass.1) }
    requires remembers { Remembers hold.old.pass.1.seen hold.old.remembered }
    ensures own { IsFree lock.now hold.new.pass }
    ensures sound { IsSound (state_seen hold.new.pass.1) }
    ensures remembers { Remembers hold.new.pass.1.seen hold.new.remembered }
    ensures look { IsLook need hold.old hold.new result }
    ensures answer { Answers need hold.old hold.new result }
    ensures waits { Waits need hold.old hold.new result }
    ensures shown { hold.new.shown ≡ shown_by result hold.old.shown }
    ensures knows { KnowsOn hold.old.pass.1 hold.new.pass.1 }
    ensures within { IsWithin hold.old → IsWithin hold.new }
{
    if let Some(answer) = hold.remembered.answer(need) {
        hold.waiting.need = None;
        return answer;
    }
    look_in_turn(rt, lock, hold, need)
}
