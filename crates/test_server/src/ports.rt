//! Which links of a port are served, and how it ends.

use super::asked::{Visit, ends};
use super::hall::ASKS_NOTHING;
use super::holds_with_memory;
use super::server_visits::NO_QUERY;
use query_server::Served;
use test_mem_source::Kind;

/// Three links of one request, of which the second fails at its first write: the first and the third get their reply.
static BOTH: &[Visit] = &[
    (ASKS_NOTHING, &[], NO_QUERY, true),
    (ASKS_NOTHING, &[1], NO_QUERY, false),
    (ASKS_NOTHING, &[], NO_QUERY, true),
];

/// The same where the third gets none.
static FIRST: &[Visit] = &[
    (ASKS_NOTHING, &[], NO_QUERY, true),
    (ASKS_NOTHING, &[1], NO_QUERY, false),
    (ASKS_NOTHING, &[], NO_QUERY, false),
];

/// The same where no link gets one.
static NONE: &[Visit] = &[
    (ASKS_NOTHING, &[], NO_QUERY, false),
    (ASKS_NOTHING, &[1], NO_QUERY, false),
    (ASKS_NOTHING, &[], NO_QUERY, false),
];

#[test]
fn a_link_that_fails_ends_its_connection_alone(rt: HostRuntime) {
    let end = Served::Ended { conns: 3 };
    let is_so = ends(&rt, rt.alloc(), Kind::IsAt(7), 2, 3, &[], end, BOTH);
    holds_with_memory(&rt, is_so);
}

#[test]
fn the_port_ends_before_all_that_were_asked_for(rt: HostRuntime) {
    let end = Served::Ended { conns: 3 };
    let is_so = ends(&rt, rt.alloc(), Kind::IsAt(7), 2, 7, &[], end, BOTH);
    holds_with_memory(&rt, is_so);
}

#[test]
fn no_link_more_than_asked_for_is_taken(rt: HostRuntime) {
    let end = Served::Ended { conns: 2 };
    let is_so = ends(&rt, rt.alloc(), Kind::IsAt(7), 2, 2, &[], end, FIRST);
    holds_with_memory(&rt, is_so);
}

#[test]
fn no_link_is_asked_for(rt: HostRuntime) {
    let end = Served::Ended { conns: 0 };
    let is_so = ends(&rt, rt.alloc(), Kind::IsAt(7), 2, 0, &[], end, NONE);
    holds_with_memory(&rt, is_so);
}

#[test]
fn a_port_that_fails_ends_the_server_behind_its_links(rt: HostRuntime) {
    let is_so = ends(
        &rt,
        rt.alloc(),
        Kind::IsAt(7),
        2,
        3,
        &[3],
        Served::PortFault,
        FIRST,
    );
    holds_with_memory(&rt, is_so);
}
