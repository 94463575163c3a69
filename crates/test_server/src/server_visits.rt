//! Requests to the server over a link in memory, and their replies. One thread serves and fetches.

ghost use Rattle.std.specs.Prelude.{◌≡◌, ◌<◌, ◌^◌, All, length, IfSome};
ghost use Rattle.source_pool.specs.Passes.{IsIdleOf};
ghost use Rattle.fetcher.specs.Metering.{nothing};
ghost use Rattle.workers.specs.Sides.{HasFeeder};
ghost use Rattle.server_conn.specs.Entries.{MayAnswer};
ghost use Rattle.test_query_support.specs.Pairs.{IsPair};

use super::desk::{open_lists, opened_may_answer};
use fetcher::{Fetched, Slot};
use server_conn::{Answers, OpenedCatalog, Turn, serve_conn};
use source_pool::{Feeder, Pool, PoolPass};
use std::alloc::Global;
use std::sync::Wait;
use test_mem_source::visits::{CLOSE, Parts, joined, link_of, status_in};
use test_mem_source::{Held, Kind, MemSource, source_of};
use test_query_support::Pair;
use tk_io::MemLink;
use topk_base::Settings;
use wire::ConnEnd;
use workers::open_sides;

/// Two lists of three objects.
const A: Held = Held {
    place: "a",
    rows: &[(1, 900), (2, 800), (3, 100)],
    kind: Kind::Honest,
};

const B: Held = Held {
    place: "b",
    rows: &[(2, 700), (3, 600), (1, 500)],
    kind: Kind::Honest,
};

/// The front of a reply of the query server with an outcome.
pub(crate) const OK: &[u8] = b"HTTP/1.1 200 OK\r\nContent-Type: text/plain\r\n";

/// The reply to a line of no bytes.
pub(crate) const NO_QUERY: Parts = &[
    OK,
    b"Content-Length: 19\r\n",
    CLOSE,
    b"refused 1 Syntax 0\n",
];

/// Whether a connection ended with the reply of these parts and its status, and nothing moved.
fn is_reply(alloc: Global, turn: Turn, link: &MemLink, parts: &[&[u8]]) -> bool {
    let Some(reply) = joined(alloc, parts) else {
        return false;
    };
    let is_so = match turn.end {
        ConnEnd::Replied { status } => {
            !turn.moved && Some(status) == status_in(&reply) && link.taken() == reply.as_slice()
        }
        ConnEnd::LinkFault => false,
    };
    drop(reply);
    is_so
}

/// How the connection of a link ends over lists and the slots of their sources, of which this thread fetches for itself. None without memory.
fn answer(
    rt: &impl Wait,
    alloc: Global,
    lists: &OpenedCatalog,
    pool: &Pool,
    pass: &mut PoolPass,
    slots: &mut Vec<Slot<MemSource>>,
    link: &mut MemLink,
) -> Option<Turn>
    requires may { MayAnswer lists.now pool.now pass.old }
    requires feeders { All (λ slot. HasFeeder pool.now slot.feeder) slots.old.items }
    requires fresh { All (λ slot. slot.fetched ≡ nothing) slots.old.items }
    requires many { (length slots.old.items ≡ length pool.now) × (length slots.old.items < 2 ^ 32) }
{
    let settings = Settings {
        workers: 1,
        page: 1,
        ahead: 0,
    };
    let Ok(mut answers) = Answers::make(alloc) else {
        return None;
    };
    let mut nobody: Vec<PoolPass> = Vec::new(alloc);
    let Some((table, mut handles)) = open_sides(alloc, pool, &mut nobody, slots, settings) else {
        drop(nobody);
        drop(answers);
        return None;
    };
    let own = &mut handles.first;
    let turn = serve_conn(
        rt,
        alloc,
        lists,
        pool,
        &table,
        own,
        pass,
        &mut answers,
        link,
    );
    drop(handles);
    drop(table);
    drop(nobody);
    drop(answers);
    Some(turn)
}

/// The slot of a source with its feeder, of which nothing was fetched.
fn slot_of(pool: &Pool, source: MemSource, feeder: Feeder) -> Slot<MemSource>
    requires { IsIdleOf pool.now feeder }
    ensures feeder { HasFeeder pool.now result.feeder }
    ensures fresh { result.fetched ≡ nothing }
{
    Slot {
        source,
        feeder: Some(feeder),
        fetched: Fetched { rows: 0, grades: 0 },
    }
}

/// The slots of two sources with the feeders of a pool. None without memory.
fn two_slots(
    alloc: Global,
    pool: &Pool,
    sources: (MemSource, MemSource),
    feeders: (Feeder, Feeder),
) -> Option<Vec<Slot<MemSource>>>
    requires first { IsIdleOf pool.now feeders.0 }
    requires second { IsIdleOf pool.now feeders.1 }
    ensures feeders { IfSome result (λ slots. All (λ slot. HasFeeder pool.now slot.feeder) slots.items) }
    ensures fresh { IfSome result (λ slots. All (λ slot. slot.fetched ≡ nothing) slots.items) }
    ensures many { IfSome result (λ slots. length slots.items ≡ 2) }
{
    let (first, second) = sources;
    let (its, other) = feeders;
    let Ok(slots) = vec![in alloc; slot_of(pool, first, its), slot_of(pool, second, other)] else {
        return None;
    };
    Some(slots)
}

/// A pool of a pair has two sources.
fn has_two(pair: &Pair)
    requires { IsPair 3 pair.now }
    ensures { length pair.now.pool ≡ 2 }
{}

/// How the connection of a link ends over the four lists and these sources. None without memory.
fn serve_over(
    rt: &impl Wait,
    alloc: Global,
    sources: (MemSource, MemSource),
    link: &mut MemLink,
) -> Option<Turn> {
    let lists = open_lists(alloc)?;
    let Some(pair) = Pair::open(alloc, 3) else {
        drop(sources);
        drop(lists);
        return None;
    };
    opened_may_answer(&lists, &pair);
    has_two(&pair);
    let Pair {
        pool,
        mut pass,
        first,
        second,
    } = pair;
    let Some(mut slots) = two_slots(alloc, &pool, sources, (first, second)) else {
        drop(pass);
        drop(pool);
        drop(lists);
        return None;
    };
    let turn = answer(rt, alloc, &lists, &pool, &mut pass, &mut slots, link);
    drop(slots);
    drop(pass);
    drop(pool);
    drop(lists);
    turn
}

/// The sources of A and B. None without memory.
fn two_sources(alloc: Global) -> Option<(MemSource, MemSource)> {
    let first = source_of(alloc, &A)?;
    match source_of(alloc, &B) {
        Some(second) => Some((first, second)),
        None => {
            drop(first);
            None
        }
    }
}

/// How the connection of a link ends over the lists A and B. None without memory.
pub(crate) fn serve_link(rt: &impl Wait, alloc: Global, link: &mut MemLink) -> Option<Turn> {
    let sources = two_sources(alloc)?;
    serve_over(rt, alloc, sources, link)
}

/// Whether a request gets this reply, where so many of its bytes come in one read.
fn replies(rt: &impl Wait, alloc: Global, request: &[&[u8]], piece: u32, reply: &[&[u8]]) -> bool {
    let Some(mut link) = link_of(alloc, request, piece, &[], &[]) else {
        return false;
    };
    let is_so = match serve_link(rt, alloc, &mut link) {
        Some(turn) => is_reply(alloc, turn, &link, reply),
        None => false,
    };
    drop(link);
    is_so
}

/// Whether a request gets this reply, whole and byte by byte.
pub(crate) fn comes_to(rt: &impl Wait, alloc: Global, request: &[&[u8]], reply: &[&[u8]]) -> bool {
    replies(rt, alloc, request, 1_000_000, reply) && replies(rt, alloc, request, 1, reply)
}

/// The place of the first request that gets another reply.
pub(crate) fn first_other(
    rt: &impl Wait,
    alloc: Global,
    visits: &[(Parts, Parts)],
) -> Option<usize> {
    for (place, (request, reply)) in visits.iter().enumerate() {
        if !comes_to(rt, alloc, request, reply) {
            return Some(place);
        }
    }
    None
}
