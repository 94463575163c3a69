//! Calls on a source, one after another, each with the link that it gets.

ghost use Rattle.std.specs.Prelude.{◌<◌, All, IfOk};
ghost use Rattle.tk_io.specs.LinksInMemory.{IsUnused};

use super::bodies::{Pairs, are};
use http_source::HttpSource;
use ranked_list::Row;
use source_api::{Source, Trouble};
use std::alloc::Global;
use test_mem_source::visits::{Parts, joined};
use tk_io::{Ended, MemDial, MemLink, Memory};
use wire::Place;

/// A call on a source.
#[derive(Clone, Copy)]
pub(crate) enum Call {
    Size,
    Page(u32, u32),
    Grade(u32),
}

/// What a call gives.
#[derive(Clone, Copy)]
pub(crate) enum Gives {
    Count(u64),
    Rows(Pairs),
    Graded(Option<u32>),
    Ends(Trouble),
}

/// A call, the tail of its request, what its link brings, and what it gives.
pub(crate) type Step = (Call, &'static [u8], Parts, Gives);

/// How many bytes one read gives: all of a message, or one.
static PIECES: &[u32] = &[1_000_000, 1];

/// A link that brings these bytes, with room for every request.
fn link(alloc: Global, parts: &[&[u8]], piece: u32) -> Result<MemLink, Memory>
    ensures { IfOk result IsUnused }
{
    let Some(bytes) = joined(alloc, parts) else {
        return Err(Memory);
    };
    MemLink::make(alloc, &bytes, piece.max(1), 1_000, &[], &[], None)
}

/// The links of these steps, in their order.
fn links(alloc: Global, steps: &[Step], piece: u32) -> Result<Vec<MemLink>, Memory>
    ensures { IfOk result (λ links. All IsUnused links.items) }
{
    let mut links = Vec::new(alloc);
    for (_, _, parts, _) in steps {
        links.push(link(alloc, parts, piece)?)?;
    }
    Ok(links)
}

/// The source of the list `/lists/A` of the host `h` at port 80 over this dial.
pub(crate) fn source_over(alloc: Global, dial: MemDial) -> Option<HttpSource<MemDial>> {
    let Ok(place) = place(alloc) else {
        drop(dial);
        return None;
    };
    HttpSource::make(alloc, dial, &place).ok()
}

/// The place of the list.
fn place(alloc: Global) -> Result<Place, Memory> {
    let host = String::from_str(alloc, "h")?;
    let path = String::from_str(alloc, "/lists/A")?;
    Ok(Place {
        host,
        port: 80,
        path,
    })
}

/// Whether a call for the size gives this.
fn is_count(answer: Result<u64, Trouble>, gives: Gives) -> bool {
    match (answer, gives) {
        (Ok(count), Gives::Count(wanted)) => count == wanted,
        (Err(trouble), Gives::Ends(wanted)) => trouble == wanted,
        _ => false,
    }
}

/// Whether a call for rows gives this.
fn is_page(answer: &Result<Vec<Row>, Trouble>, gives: Gives) -> bool {
    match (answer, gives) {
        (Ok(rows), Gives::Rows(pairs)) => are(rows.as_slice(), pairs),
        (Err(trouble), Gives::Ends(wanted)) => *trouble == wanted,
        _ => false,
    }
}

/// Whether a call for a grade gives this.
fn is_grade(answer: Result<Option<u32>, Trouble>, gives: Gives) -> bool {
    match (answer, gives) {
        (Ok(grade), Gives::Graded(wanted)) => grade == wanted,
        (Err(trouble), Gives::Ends(wanted)) => trouble == wanted,
        _ => false,
    }
}

/// Whether a call on the source gives this.
pub(crate) fn call_gives(
    alloc: Global,
    source: &mut HttpSource<MemDial>,
    call: Call,
    gives: Gives,
) -> bool {
    match call {
        Call::Size => is_count(source.size(alloc), gives),
        Call::Page(from, count) => {
            let answer = source.page(alloc, from, count.max(1));
            let is_so = is_page(&answer, gives);
            drop(answer);
            is_so
        }
        Call::Grade(object) => is_grade(source.grade(alloc, object), gives),
    }
}

/// The first step that gives something else.
fn first_other(alloc: Global, source: &mut HttpSource<MemDial>, steps: &[Step]) -> Option<usize> {
    for (place, (call, _, _, gives)) in steps.iter().enumerate() {
        if !call_gives(alloc, source, *call, *gives) {
            return Some(place);
        }
    }
    None
}

/// Whether a link that was given back took the request with this tail, or so many bytes of it, and so
/// many of its reads and of its writes failed.
pub(crate) fn took(
    alloc: Global,
    ended: Option<&Ended>,
    tail: &[u8],
    bytes: usize,
    faults: (u64, u64),
) -> bool {
    let Some(ended) = ended else {
        return false;
    };
    let Some(request) = joined(
        alloc,
        &[
            b"GET /lists/A",
            tail,
            b" HTTP/1.1\r\nHost: h:80\r\nConnection: close\r\n\r\n",
        ],
    ) else {
        return false;
    };
    let front = request.get(..bytes).unwrap_or(request.as_slice());
    let is_so = ended.taken() == front
        && ended.read_faults() == faults.0
        && ended.write_faults() == faults.1;
    drop(request);
    is_so
}

/// Whether as many links were given back as there are steps, each with its whole request.
fn are_closed(alloc: Global, closed: &[Ended], steps: &[Step]) -> bool {
    if closed.len() != steps.len() {
        return false;
    }
    for (place, (_, tail, _, _)) in steps.iter().enumerate() {
        if !took(alloc, closed.get(place), tail, 1_000, (0, 0)) {
            return false;
        }
    }
    true
}

/// Whether these steps go as they say, so many bytes in one read, and leave no link.
fn goes_in_pieces(alloc: Global, steps: &[Step], piece: u32) -> bool {
    let Ok(links) = links(alloc, steps, piece) else {
        return false;
    };
    let Ok(dial) = MemDial::make(alloc, links, &[]) else {
        return false;
    };
    let Some(mut source) = source_over(alloc, dial) else {
        return false;
    };
    let is_so = first_other(alloc, &mut source, steps).is_none()
        && are_closed(alloc, source.dial().closed(), steps);
    drop(source);
    is_so
}

/// Whether these steps go as they say, read whole and byte by byte.
pub(crate) fn goes(alloc: Global, steps: &[Step]) -> bool {
    for piece in PIECES {
        if !goes_in_pieces(alloc, steps, *piece) {
            return false;
        }
    }
    true
}

/// The first of these runs of steps that doesn't go as it says.
pub(crate) fn first_wrong(alloc: Global, runs: &[&[Step]]) -> Option<usize> {
    for (place, steps) in runs.iter().enumerate() {
        if !goes(alloc, steps) {
            return Some(place);
        }
    }
    None
}
