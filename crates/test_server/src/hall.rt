//! A server over the lists A, B and C in memory, and links whose replies are kept.

ghost use Rattle.std.specs.Prelude.{◌≡◌, ◌≤◌, ◌<◌, None, All, length, map, IfSome};
ghost use Rattle.tk_io.specs.LinksInMemory.{IsUnused};
ghost use Rattle.query_server.specs.Homes.{AreHomes, home_of};
ghost use Rattle.query_server.specs.Reopening.{IsAtHand};
ghost use Rattle.test_server.specs.Four.{four_entries, version_of};

use super::desk::open_lists;
use fetcher::Slot;
use query_server::{Served, serve_all};
use source_api::Source;
use std::alloc::Global;
use std::sync::{OnceLock, Wait};
use std::thread::Threads;
use std::time::Clock;
use test_mem_source::visits::{Parts, joined};
use test_mem_source::{Held, Kind, MemSource, source_of};
use tk_io::{MemLink, Port, Share};
use topk_base::Settings;

/// The list A at version 7, which differs so from an honest one.
pub(crate) const fn list_a(kind: Kind) -> Held {
    Held {
        place: "a",
        rows: &[(1, 900), (2, 800), (3, 100)],
        kind,
    }
}

const B: Held = Held {
    place: "b",
    rows: &[(2, 700), (3, 600), (1, 500)],
    kind: Kind::Honest,
};

/// The list that isn't open at first.
const C: Held = Held {
    place: "c",
    rows: &[(3, 950), (1, 400), (2, 300)],
    kind: Kind::Honest,
};

/// A request with a line of no bytes.
pub(crate) const ASKS_NOTHING: Parts = &[b"GET /top?q= HTTP/1.1\r\nHost: h\r\n\r\n"];

/// Whether a link that was dropped took the whole of this reply.
pub(crate) fn took(alloc: Global, share: &Share, reply: &[&[u8]]) -> Option<bool> {
    let reply = joined(alloc, reply)?;
    match share.get() {
        Some(taken) => Some(taken.as_slice() == reply.as_slice()),
        None => Some(false),
    }
}

/// A place for what a link took.
pub(crate) fn new_share(alloc: Global) -> Option<Share> {
    Share::new(alloc, OnceLock::new()).ok()
}

/// A link with this request, of whose writes those of these numbers fail, and which leaves in the share what it took.
pub(crate) fn link_of(
    alloc: Global,
    request: &[&[u8]],
    write_fails: &[u64],
    share: &Share,
) -> Option<MemLink>
    ensures { IfSome result IsUnused }
{
    let bytes = joined(alloc, request)?;
    let Ok(kept) = share.clone() else {
        return None;
    };
    let Ok(link) = MemLink::make(alloc, &bytes, 1000, 10_000, &[], write_fails, Some(kept)) else {
        return None;
    };
    Some(link)
}

/// The slot of a source that was asked for its size once, and stated this version. None without memory.
fn slot_of(alloc: Global, held: &Held, version: u64) -> Option<Slot<MemSource>>
    ensures empty { IfSome result (λ slot. slot.feeder ≡ None) }
    ensures at_hand { IfSome result (λ slot. slot.source.version ≡ version) }
{
    let mut source = source_of(alloc, held)?;
    if source.size(alloc).is_err() || source.version() != version {
        drop(source);
        return None;
    }
    Some(Slot::make(source))
}

/// The slots of the sources, of which the first two have the versions of their lists at hand. None without memory.
fn three_slots(alloc: Global, first: &Held) -> Option<Vec<Slot<MemSource>>>
    ensures size { IfSome result (λ slots. length slots.items ≡ 3) }
    ensures empty { IfSome result (λ slots. All (λ slot. slot.feeder ≡ None) slots.items) }
    ensures at_hand { IfSome result (λ slots. All (IsAtHand version_of slots.items) four_entries) }
{
    let first = slot_of(alloc, first, 7)?;
    let second = slot_of(alloc, &B, 0)?;
    let third = Slot::make(source_of(alloc, &C)?);
    let Ok(slots) = vec![in alloc; first, second, third] else {
        return None;
    };
    Some(slots)
}

/// Three lists have a source of three each.
fn three_have_homes()
    ensures { AreHomes 3 (map home_of four_entries) }
{}

/// How a server over the lists ends that has so many workers, reads a row a page and none ahead, and serves at most so many links. None without
/// memory.
pub(crate) fn serve<R: Threads + Wait + Clock + Sync, P: Port>(
    rt: &R,
    alloc: Global,
    first: Kind,
    workers: u32,
    conns: u64,
    port: &mut P,
) -> Option<Served>
    requires { (1 ≤ workers) × (workers ≤ 32) }
{
    let mut lists = open_lists(alloc)?;
    let mut slots = three_slots(alloc, &list_a(first))?;
    three_have_homes();
    let settings = Settings {
        workers,
        page: 1,
        ahead: 0,
    };
    let served = serve_all(rt, alloc, &mut lists, &mut slots, port, settings, conns);
    drop(slots);
    drop(lists);
    Some(served)
}
