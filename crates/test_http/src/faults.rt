//! Each failing read and each failing write: the answer says so, and what was written is the front of the whole.

use super::messages::{OK, PAGE, Parts, joined};
use super::writing::{place, reply, sink};
use std::alloc::Global;
use test_support::wrong_rows;
use tk_io::MemLink;
use wire::{Place, WireFault, read_request, read_response, write_request};

/// How a call over a link ends.
#[derive(Clone, Copy, Debug, PartialEq, Eq)]
enum Ends {
    Whole,
    LinkFault,
    Otherwise,
}

/// How an answer ends.
fn end_of<T>(answer: &Result<T, WireFault>) -> Ends {
    match answer {
        Ok(_) => Ends::Whole,
        Err(WireFault::LinkFault) => Ends::LinkFault,
        Err(_) => Ends::Otherwise,
    }
}

/// How a message ends that is read byte by byte, where the read with this number fails.
fn read_ends(alloc: Global, is_request: bool, bytes: &[u8], read: u64) -> Ends {
    let Ok(mut link) = MemLink::make(alloc, bytes, 1, 0, &[read], &[], None) else {
        return Ends::Otherwise;
    };
    let ends = if is_request {
        let answer = read_request(alloc, &mut link);
        let ends = end_of(&answer);
        drop(answer);
        ends
    } else {
        let answer = read_response(alloc, &mut link);
        let ends = end_of(&answer);
        drop(answer);
        ends
    };
    drop(link);
    ends
}

/// Whether it is a request, and its parts.
type Message = (bool, Parts);

/// How many reads each message takes, so that the failure of one more isn't met: one for each byte, and the end where that of the
/// connection ends the body.
static READ: &[(&str, Message, (u64, Ends))] = &[
    (
        "a request",
        (true, &[b"GET /top?q=x HTTP/1.1\r\nHost: h\r\n\r\n"]),
        (34, Ends::Whole),
    ),
    (
        "a body of a stated length",
        (false, &[OK, b"Content-Length: 18\r\n\r\n", PAGE]),
        (57, Ends::Whole),
    ),
    (
        "a body in chunks",
        (
            false,
            &[
                OK,
                b"Transfer-Encoding: chunked\r\n\r\n12\r\n",
                PAGE,
                b"\r\n0\r\nA: b\r\n\r\n",
            ],
        ),
        (82, Ends::Whole),
    ),
    (
        "a body to the end",
        (false, &[OK, b"\r\n", PAGE]),
        (38, Ends::Whole),
    ),
];

/// After how many failing reads that are told another end comes, and which.
fn reads_told(alloc: Global, given: &Message) -> (u64, Ends) {
    let (is_request, parts) = given;
    let Some(bytes) = joined(alloc, *parts) else {
        return (0, Ends::Otherwise);
    };
    let mut told: u64 = 0;
    let mut ends = Ends::LinkFault;
    for _ in 0..200 {
        if ends == Ends::LinkFault {
            ends = read_ends(alloc, *is_request, bytes.as_slice(), told.saturating_add(1));
            if ends == Ends::LinkFault {
                told = told.saturating_add(1);
            }
        }
    }
    drop(bytes);
    (told, ends)
}

#[test]
fn a_failing_read_is_told(rt: HostRuntime) {
    assert_eq!(rt; wrong_rows(&rt, rt.alloc(), READ, reads_told), 0);
}

/// The request that is written.
const REQUEST: &[u8] = b"GET /lists/A/size HTTP/1.1\r\nHost: h:80\r\nConnection: close\r\n\r\n";

/// The reply that is written.
const REPLY: &[u8] =
    b"HTTP/1.1 404 Not Found\r\nContent-Type: text/plain\r\nContent-Length: 10\r\nConnection: close\r\n\r\nNot Found\n";

/// Whether a message of which this was taken went out so far as there was room for, and ended so.
fn is_front(ends: Ends, taken: &[u8], whole: &[u8], room: u32) -> bool {
    let front = whole.get(..room as usize).unwrap_or(whole);
    let wanted = if front.len() == whole.len() {
        Ends::Whole
    } else {
        Ends::LinkFault
    };
    taken == front && ends == wanted
}

/// Whether a request to a place stops where the room of its link ends.
fn request_stops(alloc: Global, place: &Place, room: u32) -> bool {
    let Some(mut link) = sink(alloc, room, &[]) else {
        return false;
    };
    let ends = end_of(&write_request(&mut link, place, b"/size"));
    let is_so = is_front(ends, link.taken(), REQUEST, room);
    drop(link);
    is_so
}

/// Whether a reply stops there.
fn reply_stops(alloc: Global, room: u32) -> bool {
    let Some(mut link) = sink(alloc, room, &[]) else {
        return false;
    };
    let ends = end_of(&reply(&mut link, 404, false, Some(b"Not Found\n")));
    let is_so = is_front(ends, link.taken(), REPLY, room);
    drop(link);
    is_so
}

/// The first room at which a request, and the first at which a reply, doesn't stop as it is to.
fn first_rooms(alloc: Global, place: &Place) -> (Option<u32>, Option<u32>) {
    let mut first = (None, None);
    for room in 0..150u32 {
        if first.0.is_none() && !request_stops(alloc, place, room) {
            first.0 = Some(room);
        }
        if first.1.is_none() && !reply_stops(alloc, room) {
            first.1 = Some(room);
        }
    }
    first
}

#[test]
fn a_message_stops_where_the_room_ends(rt: HostRuntime) {
    let Some(place) = place(rt.alloc(), "h", 80, "/lists/A") else {
        assert!(rt; false);
        return;
    };
    let first = first_rooms(rt.alloc(), &place);
    drop(place);
    assert_eq!(rt; first, (None, None));
}

/// How many bytes are written of a reply whose first write fails, and how it ends.
fn written_first(alloc: Global) -> Option<(usize, Ends)> {
    let mut link = sink(alloc, 1_000, &[1])?;
    let ends = end_of(&reply(&mut link, 404, false, Some(b"Not Found\n")));
    let written = link.taken().len();
    drop(link);
    Some((written, ends))
}

#[test]
fn a_failing_write_is_told(rt: HostRuntime) {
    assert_eq!(rt; written_first(rt.alloc()), Some((0, Ends::LinkFault)));
}
