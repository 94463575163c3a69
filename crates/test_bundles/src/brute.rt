//! Answers of each algorithm against the aggregates of all objects.

use super::aggregates::Aggregate;
use super::drives::one_of;
use super::random_tables::{Table, table_of};
use super::table_answers::{Asked, is_right};
use command_line::Status;
use std::alloc::Global;
use std::str::from_utf8;
use test_support::{Numbers, wrong_rows};

/// Each aggregate.
const ASKED: &[Asked] = &[
    (1, Aggregate::Sum),
    (10, Aggregate::Min),
    (7, Aggregate::Max),
    (5, Aggregate::Median),
    (20, Aggregate::Weighted),
];

/// How many lists a table has, the bound of the steps of its grades, and its lists in a query, without weights and with them.
type Size = (usize, u32, &'static str, &'static str);

/// One, four and eight lists, the first two with ties everywhere.
const SIZES: &[Size] = &[
    (1, 3, "A", "1*A"),
    (4, 2, "A,B,C,D", "1*A,2*B,3*C,4*D"),
    (8, 500, "A,B,C,D,E,F,G,H", "1*A,2*B,3*C,4*D,5*E,6*F,7*G,8*H"),
];

/// Whether `one` writes such a certificate of an input.
fn writes_right(alloc: Global, table: &Table, asked: Asked, input: &str) -> bool {
    let Some((status, out)) = one_of(alloc, input.as_bytes(), &[], 4_000_000) else {
        return false;
    };
    let is_so = match from_utf8(out.taken()) {
        Ok(certificate) => is_right(alloc, table, asked, certificate),
        Err(_) => false,
    };
    drop(out);
    is_so && status == Status::Done
}

/// Whether `one` answers a query over a table, by these lists and this algorithm.
fn answers_right(
    alloc: Global,
    table: &Table,
    asked: Asked,
    lists: (&str, &str),
    algorithm: &str,
) -> bool {
    let (k, aggregate) = asked;
    let (word, has_weights) = aggregate.word();
    let names = if has_weights { lists.1 } else { lists.0 };
    let sections = table.sections.as_str();
    let Ok(input) = format!(in alloc;
        "{sections}query top {k} by {word}({names}) using {algorithm}\n"
    ) else {
        return false;
    };
    let is_so = writes_right(alloc, table, asked, &input);
    drop(input);
    is_so
}

/// The first aggregate by which a table is answered otherwise.
fn first_wrong_of(
    alloc: Global,
    table: &Table,
    lists: (&str, &str),
    algorithm: &str,
) -> Option<&'static str> {
    for asked in ASKED {
        if !answers_right(alloc, table, *asked, lists, algorithm) {
            return Some(asked.1.word().0);
        }
    }
    None
}

/// The same of a table of this size over so many objects.
fn first_wrong_at(
    alloc: Global,
    numbers: &mut Numbers,
    size: &Size,
    count: u32,
    algorithm: &str,
) -> Option<&'static str> {
    let (lists, step, plain, weighted) = *size;
    let Some(table) = table_of(alloc, numbers, lists, count, step.max(1)) else {
        return Some("no table");
    };
    let wrong = first_wrong_of(alloc, &table, (plain, weighted), algorithm);
    drop(table);
    wrong
}

/// How many lists the first table has that is answered otherwise, and the first such aggregate.
type Wrong = Option<(usize, &'static str)>;

/// What is answered otherwise over so many objects by an algorithm.
fn first_wrong(alloc: Global, given: &(u32, &str)) -> Wrong {
    let (count, algorithm) = *given;
    let mut numbers = Numbers::from_start(1);
    for size in SIZES {
        if let Some(word) = first_wrong_at(alloc, &mut numbers, size, count, algorithm) {
            return Some((size.0, word));
        }
    }
    None
}

/// Each algorithm whose answers are the best, which those within the factor 1 are, over so many objects.
const ALGORITHMS: &[(&str, (u32, &str), Wrong)] = &[
    ("the threshold algorithm", (2_000, "ta"), None),
    ("without random access", (2_000, "nra"), None),
    (
        "over lists of which some are read in order",
        (2_000, "taz"),
        None,
    ),
    ("within the factor 1", (2_000, "theta 1/1"), None),
    (
        "combined, a random phase at each third depth",
        (500, "ca cost 2 7"),
        None,
    ),
    (
        "combined, a random phase at each depth",
        (500, "ca cost 10 3"),
        None,
    ),
    (
        "combined, a random phase at each fortieth depth",
        (500, "ca cost 1 40"),
        None,
    ),
];

#[test]
fn answers_as_all_aggregates_say(rt: HostRuntime) {
    assert_eq!(rt; wrong_rows(&rt, rt.alloc(), ALGORITHMS, first_wrong), 0);
}
