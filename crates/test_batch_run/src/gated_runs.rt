//! Batches over sources that wait, as plain data.

ghost use Rattle.std.specs.Prelude.{◌≡◌, None, All, OnSome};

use super::batch_runs::{Batching, Ran, Used, add_slot, run_ends_so};
use super::waiting::{Call, Far, Gate, Gated, Made, PATIENCE};
use batch_run::Settings;
use fetcher::Slot;
use source_api::{FailKind, Trouble};
use std::alloc::Global;
use std::sync::Wait;
use std::sync::atomic::AtomicU64;
use std::test::Fail;
use std::thread::Threads;
use test_mem_source::{Held, source_of};
use test_query_support::{Asked, Expected};

/// A source, and its call that waits.
pub type Waiter = (Held, Option<Gate>);

/// A batch: sources, which of them are far, by their numbers, how many objects each has, queries, settings, how the queries end, and how many calls
/// of the first source have failed by then.
#[derive(Clone, Copy)]
pub struct Case {
    pub waiters: &'static [Waiter],
    pub far: &'static [Far],
    pub counts: &'static [u32],
    pub asked: &'static [Asked],
    pub settings: Settings,
    pub ends: &'static [Expected],
    pub faults: u64,
}

/// The first call for a page waits for that of the first source, and fails if it waits in vain.
pub const GATE: Gate = Gate {
    call: Call::Page(1),
    source: 0,
    until: 1,
    patience: PATIENCE,
    trouble: Trouble::Fail(FailKind::Failed),
};

/// No call made of any of four sources.
fn no_calls() -> [AtomicU64; 4] {
    [
        AtomicU64::new(0),
        AtomicU64::new(0),
        AtomicU64::new(0),
        AtomicU64::new(0),
    ]
}

/// Adds a slot of each source. Their calls are counted in `made`, by their numbers. None without memory.
fn add_slots<'a>(
    alloc: Global,
    waiters: &[Waiter],
    far: &[Far],
    made: Made<'a>,
    slots: &mut Vec<Slot<Gated<'a>>>,
) -> Option<()>
    requires { All (λ slot. slot.feeder ≡ None) slots.old.items }
    ensures { OnSome result (All (λ slot. slot.feeder ≡ None) slots.new.items) }
{
    for (number, waiter) in waiters.iter().enumerate() {
        let rows = source_of(alloc, &waiter.0)?;
        let beside = far.get(number).copied();
        add_slot(Gated::make(rows, made, number, waiter.1, beside), slots)?;
    }
    Some(())
}

/// Whether a batch goes like this over its slots, whatever is used of its sources.
fn runs_as<R: Threads + Wait + Sync>(
    rt: &R,
    alloc: Global,
    slots: &mut Vec<Slot<Gated>>,
    case: &Case,
    expected: Ran,
) -> Result<bool, Fail>
    requires { All (λ slot. slot.feeder ≡ None) slots.old.items }
    ensures { All (λ slot. slot.feeder ≡ None) slots.new.items }
{
    let used: &[Used] = &[];
    let batching = Batching {
        counts: case.counts,
        asked: case.asked,
        by_grades: &[],
        settings: case.settings,
    };
    let ran = run_ends_so(rt, alloc, slots, batching, (case.ends, used))?;
    Ok(ran == expected)
}

/// The calls of the first source that have failed.
fn faults_of(slots: &[Slot<Gated>]) -> u64 {
    match slots.first() {
        Some(slot) => slot.source.counts().faults,
        None => 0,
    }
}

/// How often a batch runs over the same slots.
#[derive(Clone, Copy)]
enum Runs {
    /// Once, and it goes as it is to.
    Once,
    /// Twice: there is no batch at first, for lack of memory, and then the queries end as they are to.
    Twice,
}

/// Whether a batch goes so over its slots.
fn goes_once<R: Threads + Wait + Sync>(
    rt: &R,
    alloc: Global,
    slots: &mut Vec<Slot<Gated>>,
    case: &Case,
) -> Result<bool, Fail>
    requires { All (λ slot. slot.feeder ≡ None) slots.old.items }
{
    let so = runs_as(rt, alloc, slots, case, Ran::So)?;
    Ok(so && faults_of(slots) == case.faults)
}

/// Whether a batch runs out of memory at first, and goes so over the same slots where it is run again.
fn goes_twice<R: Threads + Wait + Sync>(
    rt: &R,
    alloc: Global,
    slots: &mut Vec<Slot<Gated>>,
    case: &Case,
) -> Result<bool, Fail>
    requires { All (λ slot. slot.feeder ≡ None) slots.old.items }
{
    if runs_as(rt, alloc, slots, case, Ran::Short)? {
        runs_as(rt, alloc, slots, case, Ran::So)
    } else {
        Ok(false)
    }
}

/// Whether a batch goes so over its slots, so often.
fn is_run_so<R: Threads + Wait + Sync>(
    rt: &R,
    alloc: Global,
    slots: &mut Vec<Slot<Gated>>,
    case: &Case,
    runs: Runs,
) -> Result<bool, Fail>
    requires { All (λ slot. slot.feeder ≡ None) slots.old.items }
{
    match runs {
        Runs::Once => goes_once(rt, alloc, slots, case),
        Runs::Twice => goes_twice(rt, alloc, slots, case),
    }
}

/// Whether a batch goes so over its sources, for which the slots are added.
fn go_so<'a, R: Threads + Wait + Sync>(
    rt: &R,
    alloc: Global,
    made: Made<'a>,
    slots: &mut Vec<Slot<Gated<'a>>>,
    case: &Case,
    runs: Runs,
) -> Result<bool, Fail>
    requires { All (λ slot. slot.feeder ≡ None) slots.old.items }
{
    match add_slots(alloc, case.waiters, case.far, made, slots) {
        Some(()) => is_run_so(rt, alloc, slots, case, runs),
        None => Err("memory".into()),
    }
}

/// Whether a batch goes so over its sources.
fn goes<R: Threads + Wait + Sync>(
    rt: &R,
    alloc: Global,
    case: &Case,
    runs: Runs,
) -> Result<bool, Fail> {
    let (pages, grades) = (no_calls(), no_calls());
    let made = Made {
        pages: &pages,
        grades: &grades,
    };
    let mut slots = Vec::new(alloc);
    let so = go_so(rt, alloc, made, &mut slots, case, runs);
    drop(slots);
    so
}

/// Whether a batch goes as it is to.
pub fn goes_so<R: Threads + Wait + Sync>(rt: &R, alloc: Global, case: &Case) -> Result<bool, Fail> {
    goes(rt, alloc, case, Runs::Once)
}

/// Whether a batch runs out of memory at first, and goes as it is to where it is run again.
pub fn goes_again<R: Threads + Wait + Sync>(
    rt: &R,
    alloc: Global,
    case: &Case,
) -> Result<bool, Fail> {
    goes(rt, alloc, case, Runs::Twice)
}
