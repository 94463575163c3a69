//! How batches go.

use super::cases::first_wrong;
use super::gated_runs::{goes_again, goes_so};
use super::{ahead, beside, far, faults, grades, shortage, tables};
use batch_run::Settings;
use std::alloc::Global;
use std::process::Abort;
use std::sync::Wait;
use std::test::Fail;
use std::thread::Threads;

/// Every batch goes as it is to: there is no first one that doesn't.
fn none_is_wrong(rt: &impl Abort, first_wrong: Option<usize>) {
    assert_eq!(rt; first_wrong, None);
}

/// The place of the first batch that goes otherwise, counted through all tables.
fn first_wrong_of<R: Threads + Wait + Sync>(
    rt: &R,
    alloc: Global,
    tables: &[&[crate::cases::Case]],
) -> Result<Option<usize>, Fail> {
    let mut before: usize = 0;
    for table in tables {
        if let Some(row) = first_wrong(rt, alloc, *table)? {
            return Ok(Some(before.saturating_add(row)));
        }
        before = before.saturating_add(table.len());
    }
    Ok(None)
}

/// The place of the first batch over sources that wait which goes otherwise.
fn first_otherwise<R: Threads + Wait + Sync>(
    rt: &R,
    alloc: Global,
    cases: &[&crate::gated_runs::Case],
) -> Result<Option<usize>, Fail> {
    for (place, case) in cases.iter().enumerate() {
        if !goes_so(rt, alloc, *case)? {
            return Ok(Some(place));
        }
    }
    Ok(None)
}

/// Over lists that are a table, and over sources whose rows, calls or grades are at fault.
#[test]
fn batches_go_as_worked_out(rt: HostRuntime) -> Result<(), Fail> {
    let tables: &[&[crate::cases::Case]] = &[
        &tables::CASES,
        &faults::ROWS,
        &faults::CALLS,
        &grades::CASES,
    ];
    none_is_wrong(&rt, first_wrong_of(&rt, rt.alloc(), tables)?);
    Ok(())
}

/// Fetchers read ahead, and a batch ends after them; and queries run beside queries, and keep their order.
#[test]
fn queries_and_fetchers_run_at_the_same_time(rt: HostRuntime) -> Result<(), Fail> {
    let cases = [
        &ahead::AHEAD,
        &ahead::UNDER_WAY,
        &beside::BOTH,
        &beside::LATE,
    ];
    none_is_wrong(&rt, first_otherwise(&rt, rt.alloc(), &cases)?);
    Ok(())
}

/// A batch by four workers.
fn by_four(case: &crate::gated_runs::Case) -> crate::gated_runs::Case {
    crate::gated_runs::Case {
        settings: Settings {
            workers: 4,
            ..case.settings
        },
        ..*case
    }
}

/// The same batch over sources that aren't far.
fn near(case: &crate::gated_runs::Case) -> crate::gated_runs::Case {
    crate::gated_runs::Case { far: &[], ..*case }
}

/// Over sources that are far, the calls of a line go side by side, and it ends as over near ones, by one worker and by four.
#[test]
fn calls_of_far_sources_go_side_by_side(rt: HostRuntime) -> Result<(), Fail> {
    for case in &[far::BY_TA, far::BY_NRA, far::BY_CA] {
        let cases = [case, &near(case), &by_four(case)];
        none_is_wrong(&rt, first_otherwise(&rt, rt.alloc(), &cases)?);
    }
    Ok(())
}

/// A call that a line foresaw and that fails before the line needs it refuses the line nothing, which asks again.
#[test]
fn a_foreseen_call_that_fails_refuses_nothing(rt: HostRuntime) -> Result<(), Fail> {
    let case = far::FAILS;
    let cases = [&case, &near(&case)];
    none_is_wrong(&rt, first_otherwise(&rt, rt.alloc(), &cases)?);
    Ok(())
}

/// A batch that runs out of memory runs again.
#[test]
fn a_batch_that_wants_memory_runs_again(rt: HostRuntime) -> Result<(), Fail> {
    assert!(rt; goes_again(&rt, rt.alloc(), &shortage::SHORT)?);
    Ok(())
}
