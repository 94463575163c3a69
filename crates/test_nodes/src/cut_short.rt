//! Replies that are cut after each of their bytes.

use super::holds;
use super::stepping::{Call, Gives, call_gives, source_over};
use source_api::{FailKind, Trouble};
use std::alloc::Global;
use test_mem_source::visits::joined;
use tk_io::{MemDial, MemLink};

/// Whether a call for one row over a link of these bytes gives this.
fn page_gives(alloc: Global, bytes: &[u8], gives: Gives) -> bool {
    let Ok(link) = MemLink::make(alloc, bytes, 100, 1_000, &[], &[], None) else {
        return false;
    };
    let Ok(links) = vec![in alloc; link] else {
        return false;
    };
    let Ok(dial) = MemDial::make(alloc, links, &[]) else {
        return false;
    };
    let Some(mut source) = source_over(alloc, dial) else {
        return false;
    };
    let is_so = call_gives(alloc, &mut source, Call::Page(0, 1), gives);
    drop(source);
    is_so
}

/// Whether these bytes give the row, and each front of them is garbled.
fn gives_whole_alone(alloc: Global, parts: &[&[u8]]) -> bool {
    let Some(bytes) = joined(alloc, parts) else {
        return false;
    };
    let mut is_so = page_gives(alloc, &bytes, Gives::Rows(&[(1, 900)]));
    for cut in 0..bytes.len() {
        is_so = is_so
            && page_gives(
                alloc,
                &bytes[..cut],
                Gives::Ends(Trouble::Fail(FailKind::Garbled)),
            );
    }
    drop(bytes);
    is_so
}

/// A page of one row.
const PAGE: &[u8] = b"{\"rows\":[[1,900]]}";

#[test]
fn a_reply_that_is_cut_is_garbled(rt: HostRuntime) {
    let alloc = rt.alloc();
    holds(
        &rt,
        gives_whole_alone(
            alloc,
            &[b"HTTP/1.1 200 OK\r\nContent-Length: 18\r\n\r\n", PAGE],
        ),
    );
    holds(
        &rt,
        gives_whole_alone(
            alloc,
            &[
                b"HTTP/1.1 200 OK\r\nTransfer-Encoding: chunked\r\n\r\n12\r\n",
                PAGE,
                b"\r\n0\r\n\r\n",
            ],
        ),
    );
    holds(
        &rt,
        gives_whole_alone(alloc, &[b"HTTP/1.1 200 OK\r\n\r\n", PAGE]),
    );
}
