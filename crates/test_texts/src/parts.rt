//! What a query holds.

use super::holds;
use query_text::{Algorithm, Costs, Names, Query, read};
use std::alloc::Global;

/// A line with all parts.
const LINE: &[u8] = b"top 12 by sum(zeta,A,zeta) using ta cost 7 80 room 900";

/// Whether a query has the numbers of that line.
fn has_numbers(query: &Query) -> bool {
    let costs = Costs {
        sorted: 7,
        random: 80,
    };
    query.k == 12 && query.cost == Some(costs) && query.room == Some(900) && query.expr.lists() == 2
}

/// Whether there are two names, and these.
fn are_two(names: &Names, first: &[u8], second: &[u8]) -> bool {
    names.len() == 2
        && !names.is_empty()
        && names.get(0) == Some(first)
        && names.get(1) == Some(second)
        && names.get(2).is_none()
}

/// Whether a query has the parts of that line: each list has one name, in the order in which the names come first.
fn has_parts(query: Query) -> bool {
    let are_so = has_numbers(&query) && query.algorithm == Algorithm::Ta;
    let query = Query {
        names: Names::from_vec(query.names.into_vec()),
        ..query
    };
    let are_named = are_two(&query.names, b"zeta", b"A");
    query.let_go();
    are_so && are_named
}

/// Whether that line is read, and its query has these parts.
fn is_read(alloc: Global) -> bool {
    match read(alloc, LINE) {
        Ok(query) => has_parts(query),
        Err(_) => false,
    }
}

#[test]
fn a_query_has_its_parts(rt: HostRuntime) {
    holds(&rt, is_read(rt.alloc()));
}
