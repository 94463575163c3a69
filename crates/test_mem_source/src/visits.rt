//! The parts of requests and replies, the replies that refuse a request, and links in memory.

use std::alloc::Global;
use tk_io::MemLink;

/// The parts of a message, one after another.
pub type Parts = &'static [&'static [u8]];

/// A line of the replies in plain text, and the end of each head.
pub const PLAIN: &[u8] = b"Content-Type: text/plain\r\n";

pub const CLOSE: &[u8] = b"Connection: close\r\n\r\n";

/// The replies that say why there is nothing else.
pub const BAD: Parts = &[
    b"HTTP/1.1 400 Bad Request\r\n",
    PLAIN,
    b"Content-Length: 12\r\n",
    CLOSE,
    b"Bad Request\n",
];

pub const NOT_FOUND: Parts = &[
    b"HTTP/1.1 404 Not Found\r\n",
    PLAIN,
    b"Content-Length: 10\r\n",
    CLOSE,
    b"Not Found\n",
];

pub const NOT_ALLOWED: Parts = &[
    b"HTTP/1.1 405 Method Not Allowed\r\n",
    PLAIN,
    b"Allow: GET\r\nContent-Length: 19\r\n",
    CLOSE,
    b"Method Not Allowed\n",
];

pub const NO_HEAD: Parts = &[
    b"HTTP/1.1 405 Method Not Allowed\r\n",
    PLAIN,
    b"Allow: GET\r\n",
    CLOSE,
];

pub const TOO_LARGE: Parts = &[
    b"HTTP/1.1 431 Request Header Fields Too Large\r\n",
    PLAIN,
    b"Content-Length: 32\r\n",
    CLOSE,
    b"Request Header Fields Too Large\n",
];

/// The bytes of the parts, or None where no memory was left.
pub fn joined(alloc: Global, parts: &[&[u8]]) -> Option<Vec<u8>> {
    let mut bytes = Vec::new(alloc);
    for part in parts {
        let Ok(()) = bytes.extend_from_slice(part) else {
            return None;
        };
    }
    Some(bytes)
}

/// A link that gives these parts, so many bytes in one read, has room for any reply, and fails these of its reads and writes.
pub fn link_of(
    alloc: Global,
    parts: &[&[u8]],
    piece: u32,
    read_fails: &[u64],
    write_fails: &[u64],
) -> Option<MemLink> {
    let bytes = joined(alloc, parts)?;
    MemLink::make(
        alloc,
        &bytes,
        piece.max(1),
        2_000,
        read_fails,
        write_fails,
        None,
    )
    .ok()
}

/// The statuses, by how a reply begins.
static STATUSES: &[(&[u8], u16)] = &[
    (b"HTTP/1.1 200 ", 200),
    (b"HTTP/1.1 400 ", 400),
    (b"HTTP/1.1 404 ", 404),
    (b"HTTP/1.1 405 ", 405),
    (b"HTTP/1.1 431 ", 431),
    (b"HTTP/1.1 500 ", 500),
];

/// The status that stands in a reply.
pub fn status_in(reply: &[u8]) -> Option<u16> {
    for (front, status) in STATUSES {
        if reply.starts_with(front) {
            return Some(*status);
        }
    }
    None
}
