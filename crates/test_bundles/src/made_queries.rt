//! Made queries.

use made_inputs::made_query;
use query_text::print;
use std::alloc::Global;
use test_support::wrong_texts;

/// A query's number, and the objects and lists that it is made over.
type Made = (u32, u32, u8);

const ROWS: &[(&str, Made, &str)] = &[
    (
        "the first query",
        (0, 100, 3),
        "top 1 by min(l1,l2,l3) using ta cost 1 1",
    ),
    (
        "the second",
        (1, 100, 3),
        "top 2 by max(l1,l2,l3) using nra cost 1 2",
    ),
    (
        "the third",
        (2, 100, 3),
        "top 3 by sum(l1,l2,l3) using ca cost 1 3",
    ),
    (
        "the fourth",
        (3, 100, 3),
        "top 4 by median(l1,l2,l3) using ta cost 1 4",
    ),
    (
        "the fifth",
        (4, 100, 3),
        "top 5 by wsum(1*l1,2*l2,3*l3) using nra cost 1 1",
    ),
    (
        "the tenth",
        (9, 100, 3),
        "top 10 by wsum(1*l1,2*l2,3*l3) using ta cost 1 2",
    ),
    (
        "the eleventh",
        (10, 100, 3),
        "top 1 by min(l1,l2,l3) using nra cost 1 3",
    ),
    (
        "the fifth over one object",
        (4, 1, 1),
        "top 1 by wsum(1*l1) using nra cost 1 1",
    ),
    (
        "the last of 64 over eight lists",
        (63, 2, 8),
        "top 2 by median(l1,l2,l3,l4,l5,l6,l7,l8) using ta cost 1 4",
    ),
];

/// The text of the query of a row.
fn text_of(alloc: Global, made: &Made) -> Option<Vec<u8>> {
    let (number, count, lists) = *made;
    let Ok(query) = made_query(alloc, number, count.max(1), lists.max(1).min(8)) else {
        return None;
    };
    let text = print(alloc, &query);
    query.let_go();
    text.ok()
}

#[test]
fn makes_queries(rt: HostRuntime) {
    assert_eq!(rt; wrong_texts(&rt, rt.alloc(), ROWS, text_of), 0);
}
