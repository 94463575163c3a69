//! One run of a batch over slots of sources, and what it came to.

ghost use Rattle.std.specs.Prelude.{◌≡◌, ◌≤◌, true, None, All, OnSome, length};
ghost use Rattle.topk_base.specs.Ranges.{AreSettings};
ghost use Rattle.query_run.specs.Made.{IsReadyFor};

use batch_run::{Batch, Settings, run_all};
use fetcher::Slot;
use query_core::Ready;
use query_run::Endings;
use source_api::Source;
use std::alloc::Global;
use std::sync::Wait;
use std::test::Fail;
use std::thread::Threads;
use test_mem_source::{Held, MemSource, source_of};
use test_query_support::{
    Asked, Expected, are_small, is_ended_so, let_endings_go, let_go, readies_beside,
};
use topk_base::MAX_OBJECTS;

/// What is used of a source: the rows and the grades that it gave, the greatest depth that was wanted, and how many objects were asked for.
pub type Used = (u32, u32, u32, u32);

/// How a run of a batch went.
#[derive(Clone, Copy, PartialEq, Eq)]
pub enum Ran {
    /// The queries ended as they are to, and as much was used of the sources.
    So,
    /// They ended otherwise, or something else was used, or they weren't queries over a few small sources.
    Otherwise,
    /// There was no batch, for lack of memory.
    Short,
}

/// Adds a slot of a source. None without memory.
pub(crate) fn add_slot<S: Source>(source: S, slots: &mut Vec<Slot<S>>) -> Option<()>
    requires { All (λ slot. slot.feeder ≡ None) slots.old.items }
    ensures { OnSome result (All (λ slot. slot.feeder ≡ None) slots.new.items) }
{
    let Ok(()) = slots.reserve(1) else {
        return None;
    };
    slots.push_reserved(Slot::make(source));
    Some(())
}

/// Adds a slot of each source. None without memory.
pub(crate) fn add_slots(
    alloc: Global,
    held: &[Held],
    slots: &mut Vec<Slot<MemSource>>,
) -> Option<()>
    requires { All (λ slot. slot.feeder ≡ None) slots.old.items }
    ensures { OnSome result (All (λ slot. slot.feeder ≡ None) slots.new.items) }
{
    for one in held {
        add_slot(source_of(alloc, one)?, slots)?;
    }
    Some(())
}

/// Whether the settings are within their limits.
fn are_within(settings: Settings) -> bool
    ensures { result ≡ true → AreSettings settings }
{
    settings.workers >= 1
        && settings.workers <= 32
        && settings.page >= 1
        && settings.page <= 10_000
        && settings.ahead <= 100
}

/// Whether the sources are few and small, and the queries few.
fn are_few(counts: &[u32], sources: usize, queries: usize) -> bool
    ensures sources { result ≡ true → (length counts.now ≡ sources) × (sources ≤ 100) }
    ensures counts { result ≡ true → All (λ count. count ≤ MAX_OBJECTS) counts.now }
    ensures queries { result ≡ true → queries ≤ 100 }
{
    counts.len() == sources && sources <= 100 && queries <= 100 && are_small(counts)
}

/// Whether the queries ended so, in their order.
fn are_ended_so(batch: &Batch, expected: &[Expected]) -> bool {
    if batch.len() as usize != expected.len() {
        return false;
    }
    for (place, one) in expected.iter().enumerate() {
        if place > 100 {
            return false;
        }
        match batch.outcome(place as u32) {
            Some(ended) if is_ended_so(ended, one) => {}
            _ => return false,
        }
    }
    true
}

/// Whether the uses of the first sources are these.
fn are_used_so(batch: &Batch, expected: &[Used]) -> bool {
    for (source, used) in expected.iter().enumerate() {
        if source > 100 {
            return false;
        }
        match batch.used(source as u32) {
            Some(one) if (one.rows, one.grades, one.want, one.asks) == *used => {}
            _ => return false,
        }
    }
    true
}

/// Whether a batch came to this.
fn is_so(batch: &Batch, ends: &[Expected], used: &[Used]) -> bool {
    are_ended_so(batch, ends) && are_used_so(batch, used)
}

/// Lets a batch go.
fn let_batch_go(batch: Batch) {
    let count = batch.len();
    let endings = batch.into_endings();
    // Serves the prover alone: as many endings as the batch had are no more than a list may have.
    prove!(endings.len() == count as usize);
    let_endings_go(Endings::from_vec(endings));
}

/// Whether a batch, which is let go, came to this.
fn how_ran(batch: Batch, ends: &[Expected], used: &[Used]) -> Ran {
    let so = is_so(&batch, ends, used);
    let_batch_go(batch);
    if so { Ran::So } else { Ran::Otherwise }
}

/// How queries that are ready run over sources that have so many objects each.
fn run_ready<R: Threads + Wait + Sync, S: Source>(
    rt: &R,
    alloc: Global,
    slots: &mut Vec<Slot<S>>,
    counts: &[u32],
    readies: &[Ready],
    settings: Settings,
    expected: (&[Expected], &[Used]),
) -> Ran
    requires empty { All (λ slot. slot.feeder ≡ None) slots.old.items }
    requires ready { All (IsReadyFor counts.now) readies.now }
    ensures { All (λ slot. slot.feeder ≡ None) slots.new.items }
{
    if !are_within(settings) || !are_few(counts, slots.len(), readies.len()) {
        return Ran::Otherwise;
    }
    match run_all(rt, alloc, slots, counts, readies, settings) {
        Ok(batch) => how_ran(batch, expected.0, expected.1),
        Err(_) => Ran::Short,
    }
}

/// Queries over sources that have so many objects each, of which some answer grades alone, by these settings.
#[derive(Clone, Copy)]
pub struct Batching<'a> {
    pub counts: &'a [u32],
    pub asked: &'a [Asked],
    pub by_grades: &'a [u32],
    pub settings: Settings,
}

/// How queries run: whether they end so, and so much is used of the first sources.
pub fn run_ends_so<R: Threads + Wait + Sync, S: Source>(
    rt: &R,
    alloc: Global,
    slots: &mut Vec<Slot<S>>,
    batching: Batching<'_>,
    expected: (&[Expected], &[Used]),
) -> Result<Ran, Fail>
    requires { All (λ slot. slot.feeder ≡ None) slots.old.items }
    ensures { All (λ slot. slot.feeder ≡ None) slots.new.items }
{
    let (counts, settings) = (batching.counts, batching.settings);
    let Some(readies) = readies_beside(alloc, counts, batching.asked, batching.by_grades) else {
        return Ok(Ran::Otherwise);
    };
    let ran = run_ready(rt, alloc, slots, counts, &readies, settings, expected);
    let_go(readies);
    Ok(ran)
}
