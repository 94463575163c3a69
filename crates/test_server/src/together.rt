//! Two connections at the same time, one of which can't go on before the other has ended.

use super::hall::{ASKS_NOTHING, link_of, new_share, serve, took};
use super::holds_with_memory;
use super::server_visits::NO_QUERY;
use super::waiters::{WaiterPort, Waits};
use query_server::Served;
use std::alloc::Global;
use std::sync::Wait;
use std::thread::Threads;
use std::time::Clock;
use test_mem_source::Kind;
use tk_io::Share;

/// A link that leaves what it took in a share, and waits for the link of another share, if it waits for one.
fn link_until(alloc: Global, share: &Share, until: Option<&Share>) -> Option<Waits> {
    let link = link_of(alloc, ASKS_NOTHING, &[], share)?;
    let until = match until {
        Some(other) => Some(other.clone().ok()?),
        None => None,
    };
    Some(Waits { link, until })
}

/// Whether both links get their whole reply, where the first waits for the second or the other way round.
fn both_end<R: Threads + Wait + Clock + Sync>(
    rt: &R,
    alloc: Global,
    first_waits: bool,
) -> Option<bool> {
    let first = new_share(alloc)?;
    let second = new_share(alloc)?;
    let one = link_until(
        alloc,
        &first,
        if first_waits { Some(&second) } else { None },
    )?;
    let two = link_until(
        alloc,
        &second,
        if first_waits { None } else { Some(&first) },
    )?;
    let Ok(links) = vec![in alloc; two, one] else {
        return None;
    };
    let mut port = WaiterPort { links };
    let served = serve(rt, alloc, Kind::IsAt(7), 2, 2, &mut port)?;
    drop(port);
    let is_first = took(alloc, &first, NO_QUERY)?;
    let is_second = took(alloc, &second, NO_QUERY)?;
    Some(served == Served::Ended { conns: 2 } && is_first && is_second)
}

#[test]
fn the_first_connection_may_wait_for_the_second(rt: HostRuntime) {
    let is_so = both_end(&rt, rt.alloc(), true);
    holds_with_memory(&rt, is_so);
}

#[test]
fn the_second_connection_may_wait_for_the_first(rt: HostRuntime) {
    let is_so = both_end(&rt, rt.alloc(), false);
    holds_with_memory(&rt, is_so);
}
