//! Requests and replies, to the byte.

use http::StatusCode;
use std::alloc::Global;
use test_support::wrong_texts;
use tk_io::MemLink;
use wire::{Kind, Place, WireFault, write_reply, write_request};

/// A link that gives nothing and has room for so many bytes, whose writes with these numbers fail.
pub(crate) fn sink(alloc: Global, room: u32, fails: &[u64]) -> Option<MemLink> {
    MemLink::make(alloc, b"", 1, room, &[], fails, None).ok()
}

/// A place.
pub(crate) fn place(alloc: Global, host: &str, port: u16, path: &str) -> Option<Place> {
    let host = String::from_str(alloc, host).ok()?;
    let Ok(path) = String::from_str(alloc, path) else {
        drop(host);
        return None;
    };
    Some(Place { host, port, path })
}

/// A host, a port, a path and what follows it.
type Request = (&'static str, u16, &'static str, &'static [u8]);

static REQUESTS: &[(&str, Request, &str)] = &[
    (
        "an address",
        ("127.0.0.1", 8080, "/lists/A", b"/size"),
        "GET /lists/A/size HTTP/1.1\r\nHost: 127.0.0.1:8080\r\nConnection: close\r\n\r\n",
    ),
    (
        "a short name",
        ("h", 80, "/a.b_c-d", b"/page?from=0&count=10000"),
        "GET /a.b_c-d/page?from=0&count=10000 HTTP/1.1\r\nHost: h:80\r\nConnection: close\r\n\r\n",
    ),
    (
        "the greatest numbers",
        ("example.org", 65535, "/x", b"/grade?object=4294967295"),
        "GET /x/grade?object=4294967295 HTTP/1.1\r\nHost: example.org:65535\r\nConnection: close\r\n\r\n",
    ),
];

/// What a link took, or None where the call failed.
fn taken(alloc: Global, link: MemLink, is_whole: bool) -> Option<Vec<u8>> {
    let text = if is_whole {
        Vec::from_slice(alloc, link.taken()).ok()
    } else {
        None
    };
    drop(link);
    text
}

/// What is written of a request.
fn written_request(alloc: Global, request: &Request) -> Option<Vec<u8>> {
    let (host, port, path, tail) = request;
    let place = place(alloc, host, *port, path)?;
    let Some(mut link) = sink(alloc, 1_000, &[]) else {
        drop(place);
        return None;
    };
    let is_whole = write_request(&mut link, &place, *tail).is_ok();
    drop(place);
    taken(alloc, link, is_whole)
}

/// A status, whether the body is JSON, and the body.
type Reply = (u16, bool, Option<&'static [u8]>);

/// A body of 20,000 bytes.
const LONG: &[u8] = &[b'a'; 20_000];

static REPLIES: &[(&str, Reply, &str)] = &[
    (
        "JSON",
        (200, true, Some(b"{\"count\":3}")),
        "HTTP/1.1 200 OK\r\nContent-Type: application/json\r\nContent-Length: 11\r\nConnection: close\r\n\r\n{\"count\":3}",
    ),
    (
        "a refused line",
        (200, false, Some(b"refused 1 Syntax 0\n")),
        "HTTP/1.1 200 OK\r\nContent-Type: text/plain\r\nContent-Length: 19\r\nConnection: close\r\n\r\nrefused 1 Syntax 0\n",
    ),
    (
        "an empty text",
        (200, false, Some(b"")),
        "HTTP/1.1 200 OK\r\nContent-Type: text/plain\r\nContent-Length: 0\r\nConnection: close\r\n\r\n",
    ),
    (
        "400",
        (400, false, Some(b"Bad Request\n")),
        "HTTP/1.1 400 Bad Request\r\nContent-Type: text/plain\r\nContent-Length: 12\r\nConnection: close\r\n\r\nBad Request\n",
    ),
    (
        "404",
        (404, false, Some(b"Not Found\n")),
        "HTTP/1.1 404 Not Found\r\nContent-Type: text/plain\r\nContent-Length: 10\r\nConnection: close\r\n\r\nNot Found\n",
    ),
    (
        "405 says which method is allowed",
        (405, false, Some(b"Method Not Allowed\n")),
        "HTTP/1.1 405 Method Not Allowed\r\nContent-Type: text/plain\r\nAllow: GET\r\nContent-Length: 19\r\nConnection: close\r\n\r\nMethod Not Allowed\n",
    ),
    (
        "405 without a body, whose length is then not said",
        (405, false, None),
        "HTTP/1.1 405 Method Not Allowed\r\nContent-Type: text/plain\r\nAllow: GET\r\nConnection: close\r\n\r\n",
    ),
    (
        "431",
        (431, false, Some(b"Request Header Fields Too Large\n")),
        "HTTP/1.1 431 Request Header Fields Too Large\r\nContent-Type: text/plain\r\nContent-Length: 32\r\nConnection: close\r\n\r\nRequest Header Fields Too Large\n",
    ),
    (
        "500",
        (500, false, Some(b"Internal Server Error\n")),
        "HTTP/1.1 500 Internal Server Error\r\nContent-Type: text/plain\r\nContent-Length: 22\r\nConnection: close\r\n\r\nInternal Server Error\n",
    ),
    (
        "503",
        (503, false, Some(b"Service Unavailable\n")),
        "HTTP/1.1 503 Service Unavailable\r\nContent-Type: text/plain\r\nContent-Length: 20\r\nConnection: close\r\n\r\nService Unavailable\n",
    ),
];

/// Writes a reply of the status with this number.
pub(crate) fn reply(
    link: &mut MemLink,
    status: u16,
    is_json: bool,
    body: Option<&[u8]>,
) -> Result<(), WireFault> {
    let kind = if is_json { Kind::Json } else { Kind::Text };
    match StatusCode::from_u16(status) {
        Ok(status) => write_reply(link, status, kind, body),
        Err(_) => Err(WireFault::BadMessage),
    }
}

/// What is written of a reply.
fn written_reply(alloc: Global, given: &Reply) -> Option<Vec<u8>> {
    let (status, is_json, body) = given;
    let mut link = sink(alloc, 100_000, &[])?;
    let is_whole = reply(&mut link, *status, *is_json, *body).is_ok();
    taken(alloc, link, is_whole)
}

/// The head of a reply with the long body.
const LONG_HEAD: &[u8] =
    b"HTTP/1.1 200 OK\r\nContent-Type: application/json\r\nContent-Length: 20000\r\nConnection: close\r\n\r\n";

/// How many bytes are written behind that head, all of them those of the body.
fn long_body(alloc: Global) -> Option<usize> {
    let text = written_reply(alloc, &(200, true, Some(LONG)))?;
    let length = match text.as_slice().strip_prefix(LONG_HEAD) {
        Some(body) if body == LONG => Some(body.len()),
        _ => None,
    };
    drop(text);
    length
}

#[test]
fn writes_messages(rt: HostRuntime) {
    assert_eq!(rt; wrong_texts(&rt, rt.alloc(), REQUESTS, written_request), 0);
    assert_eq!(rt; wrong_texts(&rt, rt.alloc(), REPLIES, written_reply), 0);
    assert_eq!(rt; long_body(rt.alloc()), Some(20_000));
}
