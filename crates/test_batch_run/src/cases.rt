//! Batches as plain data, and whether they go as they are to.

ghost use Rattle.std.specs.Prelude.{◌≡◌, None, All};

use super::batch_runs::{Batching, Ran, Used, add_slots, run_ends_so};
use batch_run::Settings;
use fetcher::Slot;
use std::alloc::Global;
use std::sync::Wait;
use std::test::Fail;
use std::thread::Threads;
use test_mem_source::{Held, Kind, MemSource};
use test_query_support::{Asked, Expected};

/// A batch: sources, how many objects each is to have, queries, which sources answer grades alone, settings, how the queries end, and
/// what is used of the first sources.
#[derive(Clone, Copy)]
pub struct Case {
    pub held: &'static [Held],
    pub counts: &'static [u32],
    pub asked: &'static [Asked],
    pub by_grades: &'static [u32],
    pub settings: Settings,
    pub ends: &'static [Expected],
    pub used: &'static [Used],
}

/// Two lists of three objects.
pub const ROWS_A: &[(u32, u32)] = &[(1, 900), (2, 800), (3, 100)];

pub const ROWS_B: &[(u32, u32)] = &[(2, 700), (3, 600), (1, 500)];

/// The same as honest sources.
pub const A: Held = Held {
    place: "a",
    rows: ROWS_A,
    kind: Kind::Honest,
};

pub const B: Held = Held {
    place: "b",
    rows: ROWS_B,
    kind: Kind::Honest,
};

/// One query after another, a row a page, nothing read ahead.
pub const PLAIN: Settings = Settings {
    workers: 1,
    page: 1,
    ahead: 0,
};

/// Whether a batch goes so over its slots.
fn is_run_so<R: Threads + Wait + Sync>(
    rt: &R,
    alloc: Global,
    slots: &mut Vec<Slot<MemSource>>,
    case: &Case,
) -> Result<bool, Fail>
    requires { All (λ slot. slot.feeder ≡ None) slots.old.items }
{
    let batching = Batching {
        counts: case.counts,
        asked: case.asked,
        by_grades: case.by_grades,
        settings: case.settings,
    };
    let ran = run_ends_so(rt, alloc, slots, batching, (case.ends, case.used))?;
    Ok(ran == Ran::So)
}

/// Whether a batch goes so over its sources, for which the slots are added.
fn go_so<R: Threads + Wait + Sync>(
    rt: &R,
    alloc: Global,
    slots: &mut Vec<Slot<MemSource>>,
    case: &Case,
) -> Result<bool, Fail>
    requires { All (λ slot. slot.feeder ≡ None) slots.old.items }
{
    match add_slots(alloc, case.held, slots) {
        Some(()) => is_run_so(rt, alloc, slots, case),
        None => Err("memory".into()),
    }
}

/// Whether a batch goes as it is to.
fn goes_so<R: Threads + Wait + Sync>(rt: &R, alloc: Global, case: &Case) -> Result<bool, Fail> {
    let mut slots = Vec::new(alloc);
    let so = go_so(rt, alloc, &mut slots, case);
    drop(slots);
    so
}

/// The place of the first batch that goes otherwise.
pub fn first_wrong<R: Threads + Wait + Sync>(
    rt: &R,
    alloc: Global,
    cases: &[Case],
) -> Result<Option<usize>, Fail> {
    for (place, case) in cases.iter().enumerate() {
        if !goes_so(rt, alloc, case)? {
            return Ok(Some(place));
        }
    }
    Ok(None)
}
