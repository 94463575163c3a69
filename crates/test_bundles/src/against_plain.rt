//! What `one` writes of random tables, and what the plain program computes.

use super::bundles::bundle_of;
use super::drives::one_of;
use super::plain::expected;
use command_line::Status;
use std::alloc::Global;
use test_support::{Numbers, wrong_rows};

/// Expressions over one, two and three lists.
const EXPRESSIONS: &[(usize, &str)] = &[
    (1, "A"),
    (2, "sum(A,B)"),
    (2, "min(A,B)"),
    (2, "max(A,B)"),
    (2, "wsum(2*A,0*B)"),
    (3, "sum(A,B,C)"),
    (3, "median(A,B,C)"),
    (3, "min(sum(A,B),C)"),
];

/// Whether `one` answers a bundle by these bytes.
fn writes(alloc: Global, input: &str, wanted: &[u8]) -> bool {
    let Some((status, out)) = one_of(alloc, input.as_bytes(), &[], 4000) else {
        return false;
    };
    let is_so = status == Status::Done && out.taken() == wanted;
    drop(out);
    is_so
}

/// Whether `one` writes of a bundle what the plain program computes.
fn is_plain(alloc: Global, input: &str, asked: (&str, u32)) -> bool {
    let Some(wanted) = expected(alloc, input, asked) else {
        return false;
    };
    let is_so = writes(alloc, input, wanted.as_bytes());
    drop(wanted);
    is_so
}

/// The same of a random bundle of so many lists.
fn is_plain_at_random(
    alloc: Global,
    numbers: &mut Numbers,
    lists: usize,
    asked: (&str, u32),
) -> bool {
    let Some(input) = bundle_of(alloc, numbers, lists, asked.1, asked.0) else {
        return false;
    };
    let is_so = is_plain(alloc, &input, asked);
    drop(input);
    is_so
}

/// The same of three of them.
fn are_plain(alloc: Global, numbers: &mut Numbers, lists: usize, asked: (&str, u32)) -> bool {
    for _table in 0..3 {
        if !is_plain_at_random(alloc, numbers, lists, asked) {
            return false;
        }
    }
    true
}

/// The same of a query for k of so many objects by an expression.
fn are_plain_for(
    alloc: Global,
    numbers: &mut Numbers,
    by: (usize, &str, &str),
    k: u32,
    count: u32,
) -> bool {
    let (lists, expression, algorithm) = by;
    let Ok(query) = format!(in alloc; "top {k} by {expression} using {algorithm}") else {
        return false;
    };
    let are_so = are_plain(alloc, numbers, lists, (&query, count));
    drop(query);
    are_so
}

/// The same for each number of objects and of answers up to four.
fn is_plain_by(alloc: Global, numbers: &mut Numbers, by: (usize, &str, &str)) -> bool {
    for count in 1..5 {
        for k in 1..count + 1 {
            if !are_plain_for(alloc, numbers, by, k, count) {
                return false;
            }
        }
    }
    true
}

/// The first expression by which something else is written than the plain program computes, by an algorithm.
fn first_other(alloc: Global, algorithm: &&str) -> Option<&'static str> {
    let mut numbers = Numbers::from_start(1);
    for (lists, expression) in EXPRESSIONS {
        let by = (*lists, *expression, *algorithm);
        if !is_plain_by(alloc, &mut numbers, by) {
            return Some(*expression);
        }
    }
    None
}

/// Each algorithm, and the expression by which something else is written: there is none.
const ALGORITHMS: &[(&str, &str, Option<&'static str>)] = &[
    ("the threshold algorithm", "ta", None),
    ("without random access", "nra", None),
    ("Fagin's", "fa", None),
    ("combined at equal costs", "ca", None),
    (
        "combined, the ratio of costs less than 1",
        "ca cost 7 2",
        None,
    ),
    ("combined, the ratio between 1 and 2", "ca cost 2 3", None),
    ("combined, the ratio 2", "ca cost 1 2", None),
    (
        "combined, the ratio more than there are depths",
        "ca cost 3 100",
        None,
    ),
];

#[test]
fn writes_what_the_plain_program_computes(rt: HostRuntime) {
    assert_eq!(rt; wrong_rows(&rt, rt.alloc(), ALGORITHMS, first_other), 0);
}
