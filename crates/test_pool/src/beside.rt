//! Rows that are read beside a fetcher, and the sign that stops it.

use super::sides::read_beside;
use super::slow::Slow;
use fetcher::Stop;
use std::alloc::Global;
use std::sync::Wait;
use std::sync::atomic::AtomicU64;
use std::test::*;
use std::thread::Threads;
use test_mem_source::{Held, Kind, source_of};
use test_query_support::Pair;

/// Three rows.
const HELD: Held = Held {
    place: "a",
    rows: &[(1, 900), (2, 800), (3, 100)],
    kind: Kind::Honest,
};

/// The sum of the grades, and how many rows were fetched.
const ALL: (u32, u32) = (1800, 3);

/// Whether all rows are read that are fetched beside the reader. None without memory.
fn reads_all<R: Threads + Wait + Sync>(rt: &R, alloc: Global) -> Option<bool> {
    let looks = AtomicU64::new(0);
    let mut source = source_of(alloc, &HELD)?;
    Some(read_beside(rt, alloc, &mut source, 3, &looks) == Some(ALL))
}

/// The same of a source that answers only after the reader has looked once more.
fn reads_all_slowly<R: Threads + Wait + Sync>(rt: &R, alloc: Global) -> Option<bool> {
    let looks = AtomicU64::new(0);
    let mut source = Slow {
        rows: source_of(alloc, &HELD)?,
        looks: &looks,
    };
    Some(read_beside(rt, alloc, &mut source, 3, &looks) == Some(ALL))
}

#[test]
fn reads_what_is_fetched_beside_it(rt: HostRuntime) -> Result<(), Fail> {
    let are_so = [
        reads_all(&rt, rt.alloc()),
        reads_all_slowly(&rt, rt.alloc()),
    ];
    assert_eq!(rt; are_so, [Some(true), Some(true)]);
    Ok(())
}

/// Whether the sign is set before it is set by hand, and then. None without memory.
fn set_by_hand(alloc: Global) -> Option<[bool; 2]> {
    let stop = Stop::make();
    let before = stop.is_set();
    let pair = Pair::open(alloc, 1)?;
    stop.set(&pair.pool);
    pair.let_go();
    Some([before, stop.is_set()])
}

#[test]
fn a_stop_is_set_by_hand(rt: HostRuntime) -> Result<(), Fail> {
    assert_eq!(rt; set_by_hand(rt.alloc()), Some([false, true]));
    Ok(())
}
