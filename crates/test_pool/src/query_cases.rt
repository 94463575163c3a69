//! Cases of one query as plain data, and whether it ends as it is to.

ghost use Rattle.std.specs.Prelude.{◌≤◌, ◌∷◌, [], All};
ghost use Rattle.query_run.specs.Made.{IsReadyFor};

use super::query_sides::ends_beside;
use query_core::Ready;
use std::alloc::Global;
use std::sync::Wait;
use std::test::Fail;
use std::thread::Threads;
use test_mem_source::{Held, MemSource, source_of};
use test_query_support::{Asked, Expected, let_go, readies_of};

/// A query over two sources that are to have so many objects each, and how it ends.
#[derive(Clone, Copy)]
pub struct Case {
    pub asked: Asked,
    pub held: (&'static Held, &'static Held),
    pub count: u32,
    pub ends: Expected,
}

/// Whether the first of these queries ends over its sources as it is to.
fn first_ends_so<R: Threads + Wait + Sync>(
    rt: &R,
    alloc: Global,
    count: u32,
    sources: &mut (MemSource, MemSource),
    readies: &[Ready],
    ends: &Expected,
) -> bool
    requires count { count ≤ 200000 }
    requires ready { All (IsReadyFor (count ∷ count ∷ [])) readies.now }
{
    !readies.is_empty() && ends_beside(rt, alloc, count, sources, &readies[0], ends)
}

/// Whether the query of a case ends as it is to over its sources.
fn ends_over<R: Threads + Wait + Sync>(
    rt: &R,
    alloc: Global,
    case: &Case,
    sources: &mut (MemSource, MemSource),
) -> Result<bool, Fail> {
    let count = case.count.min(200_000);
    let Some(readies) = readies_of(alloc, &[count, count], &[case.asked]) else {
        return Ok(false);
    };
    let so = first_ends_so(rt, alloc, count, sources, &readies, &case.ends);
    let_go(readies);
    Ok(so)
}

/// The sources of a case. None without memory.
fn sources_of(alloc: Global, case: &Case) -> Option<(MemSource, MemSource)> {
    let first = source_of(alloc, case.held.0)?;
    match source_of(alloc, case.held.1) {
        Some(second) => Some((first, second)),
        None => {
            drop(first);
            None
        }
    }
}

/// The same, with the sources.
fn ends_so<R: Threads + Wait + Sync>(rt: &R, alloc: Global, case: &Case) -> Result<bool, Fail> {
    let Some(mut sources) = sources_of(alloc, case) else {
        return Ok(false);
    };
    let so = ends_over(rt, alloc, case, &mut sources);
    drop(sources);
    so
}

/// The place of the first case whose query ends otherwise.
pub fn first_wrong<R: Threads + Wait + Sync>(
    rt: &R,
    alloc: Global,
    cases: &[Case],
) -> Result<Option<usize>, Fail> {
    for (place, case) in cases.iter().enumerate() {
        if !ends_so(rt, alloc, case)? {
            return Ok(Some(place));
        }
    }
    Ok(None)
}
