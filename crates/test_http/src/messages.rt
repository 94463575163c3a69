//! Messages in parts, and what comes of them, as a text.

use std::alloc::Global;
use tk_io::{MemLink, MemSink, Put, Writer};
use wire::{Head, Reply, WireFault, read_request, read_response};

/// The parts of a message, one after another.
pub(crate) type Parts = &'static [&'static [u8]];

/// A label, a message, and what comes of it.
pub(crate) type Row = (&'static str, Parts, &'static str);

/// The status line of a response that has what was asked for.
pub(crate) const OK: &[u8] = b"HTTP/1.1 200 OK\r\n";

/// A page of one row, and what comes of a response with it.
pub(crate) const PAGE: &[u8] = b"{\"rows\":[[1,900]]}";

pub(crate) const THE_PAGE: &str = "200 {\"rows\":[[1,900]]}";

/// What comes of bytes that are no message.
pub(crate) const BAD: &str = "no message";

/// Which messages are read.
#[derive(Clone, Copy)]
pub(crate) enum Kind {
    Request,
    Response,
}

/// The bytes of the parts, or None where no memory was left.
pub(crate) fn joined(alloc: Global, parts: &[&[u8]]) -> Option<Vec<u8>> {
    let mut bytes = Vec::new(alloc);
    for part in parts {
        let Ok(()) = bytes.extend_from_slice(part) else {
            return None;
        };
    }
    Some(bytes)
}

/// Puts why a message isn't read.
fn put_fault(writer: &mut Writer<'_, MemSink>, fault: &WireFault) {
    match fault {
        WireFault::BadMessage => writer.put(b"no message"),
        WireFault::TooLong { limit } => {
            writer.put(b"more than ");
            writer.put_number(u64::from(*limit));
        }
        WireFault::LinkFault => writer.put(b"the link failed"),
        WireFault::Memory => writer.put(b"no memory"),
    }
}

/// Puts a request: its method and its target.
fn put_request(writer: &mut Writer<'_, MemSink>, answer: &Result<Head, WireFault>) {
    match answer {
        Ok(head) => {
            writer.put(head.method.as_str().as_bytes());
            writer.put(b" ");
            writer.put(head.target.as_slice());
        }
        Err(fault) => put_fault(writer, fault),
    }
}

/// Puts a response: its status and its body.
fn put_response(writer: &mut Writer<'_, MemSink>, answer: &Result<Reply, WireFault>) {
    match answer {
        Ok(reply) => {
            writer.put_number(u64::from(reply.status));
            if let Some(body) = &reply.body {
                writer.put(b" ");
                writer.put(body.as_slice());
            }
        }
        Err(fault) => put_fault(writer, fault),
    }
}

/// Reads a message of a link, and puts what comes of it. False where there is no room.
fn is_put(alloc: Global, kind: Kind, link: &mut MemLink, out: &mut MemSink) -> bool {
    let mut writer = Writer::make(out);
    match kind {
        Kind::Request => {
            let answer = read_request(alloc, link);
            put_request(&mut writer, &answer);
            drop(answer);
        }
        Kind::Response => {
            let answer = read_response(alloc, link);
            put_response(&mut writer, &answer);
            drop(answer);
        }
    }
    writer.end().is_ok()
}

/// What comes of a message, of which one read gives so many bytes. None without memory.
fn came_in_pieces(alloc: Global, kind: Kind, bytes: &[u8], piece: u32) -> Option<Vec<u8>> {
    let Ok(mut link) = MemLink::make(alloc, bytes, piece.max(1), 0, &[], &[], None) else {
        return None;
    };
    let Ok(mut out) = MemSink::make(alloc, 1_000, &[]) else {
        return None;
    };
    let text = if is_put(alloc, kind, &mut link, &mut out) {
        Vec::from_slice(alloc, out.taken()).ok()
    } else {
        None
    };
    drop(out);
    drop(link);
    text
}

/// What comes of a message, which is the same whether it is read whole or byte by byte: else this is told. None without memory.
pub(crate) fn came_of(alloc: Global, kind: Kind, bytes: &[u8]) -> Option<Vec<u8>> {
    let whole = came_in_pieces(alloc, kind, bytes, 1_000_000);
    let mut text = came_in_pieces(alloc, kind, bytes, 1)?;
    if whole.as_deref() != Some(text.as_slice()) {
        let Ok(()) = text.extend_from_slice(b" byte by byte") else {
            return None;
        };
    }
    Some(text)
}

/// The same of a message of these parts.
fn came_of_parts(alloc: Global, kind: Kind, parts: &[&[u8]]) -> Option<Vec<u8>> {
    let bytes = joined(alloc, parts)?;
    let text = came_of(alloc, kind, bytes.as_slice());
    drop(bytes);
    text
}

/// What comes of a request of these parts.
pub(crate) fn request_of(alloc: Global, parts: &Parts) -> Option<Vec<u8>> {
    came_of_parts(alloc, Kind::Request, *parts)
}

/// What comes of a response of these parts.
pub(crate) fn response_of(alloc: Global, parts: &Parts) -> Option<Vec<u8>> {
    came_of_parts(alloc, Kind::Response, *parts)
}
