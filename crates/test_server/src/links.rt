//! Links that fail.

use super::holds;
use super::server_visits::serve_link;
use std::alloc::Global;
use std::sync::Wait;
use test_mem_source::visits::{Parts, link_of};
use wire::ConnEnd;

/// A request that gets a reply.
const REQUEST: Parts = &[b"GET /top?q= HTTP/1.1\r\nHost: h\r\n\r\n"];

/// Whether the connection ends by its link's fault, nothing being written, where these of its reads and writes fail.
fn fails(rt: &impl Wait, alloc: Global, read_fails: &[u64], write_fails: &[u64]) -> bool {
    let Some(mut link) = link_of(alloc, REQUEST, 10, read_fails, write_fails) else {
        return false;
    };
    let is_so = match serve_link(rt, alloc, &mut link) {
        Some(turn) => turn.end == ConnEnd::LinkFault && !turn.moved && link.taken().is_empty(),
        None => false,
    };
    drop(link);
    is_so
}

#[test]
fn a_link_fails_at_a_read(rt: HostRuntime) {
    let alloc = rt.alloc();
    holds(
        &rt,
        fails(&rt, alloc, &[1], &[]) && fails(&rt, alloc, &[3], &[]),
    );
}

#[test]
fn a_link_fails_at_its_first_write(rt: HostRuntime) {
    holds(&rt, fails(&rt, rt.alloc(), &[], &[1]));
}
