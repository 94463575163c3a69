//! Query lines that are read and printed, and each front of some.

use query_text::{Query, QueryFault, print, read};
use std::alloc::Global;
use test_support::wrong_rows;

/// Whether a query is printed as this line.
fn is_printed(alloc: Global, query: &Query, line: &[u8]) -> bool {
    let Ok(text) = print(alloc, query) else {
        return false;
    };
    let is_so = text.as_slice() == line;
    drop(text);
    is_so
}

/// What comes of a line.
#[derive(Clone, Copy, Debug, PartialEq, Eq)]
enum Comes {
    /// It is read, and printed as it was.
    Printed,
    /// It is read, and printed otherwise.
    Changed,
    /// It isn't of the shape of a query from this place on.
    Syntax(u32),
    /// It is refused for something else.
    Refused,
}

/// What comes of a line.
fn comes_of(alloc: Global, line: &[u8]) -> Comes {
    match read(alloc, line) {
        Ok(query) => {
            let is_so = is_printed(alloc, &query, line);
            query.let_go();
            if is_so {
                Comes::Printed
            } else {
                Comes::Changed
            }
        }
        Err(QueryFault::Syntax { at }) => Comes::Syntax(at),
        Err(_) => Comes::Refused,
    }
}

/// The same of the line of a row.
fn comes_of_row(alloc: Global, line: &&str) -> Comes {
    comes_of(alloc, line.as_bytes())
}

/// Rows of lines that are read, each with itself for a label.
macro_rules! printed {
    ($($line:expr,)*) => {
        &[$(($line, $line, Comes::Printed),)*]
    };
}

/// Lines that are read.
const READ: &[(&str, &str, Comes)] = printed![
    "top 1 by A using ta",
    "top 1 by A using nra",
    "top 1 by A using ca",
    "top 3 by sum(A,B) using ca cost 1 9 room 7",
    "top 1000000 by min using ta cost 1 1",
    "top 3 by max(min,sum,median,wsum,max) using ta cost 1000000 1000000 room 1000000",
    "top 2 by wsum(0*A,2*median(B_2,A),9223372036852*B_2) using ta room 1",
    "top 5 by sum(A,B,C,D,E,F,G,H,A) using ta",
    "top 9 by min(max(a),sum(b,wsum(1*c)),median(d)) using ta cost 10 200",
    "top 1 by aaaaaaaaaaaaaaaaaaaaaaaaaaaaaaaa using ta",
    "top 12 by sum(zeta,A,zeta) using ta cost 7 80 room 900",
    "top 1 by A using taz",
    "top 1 by A using taz cost 1 2 room 5",
    "top 1 by A using theta 8/7",
    "top 1 by A using theta 1/1 room 9",
    "top 1 by A using theta 1000000/1 cost 3 4",
    "top 1 by A using theta 1000000/1000000 cost 1 1 room 1",
    "top 1 by A using early 1",
    "top 1 by A using early 1000000 cost 10 1 room 7",
];

/// A line with a line end.
const ENDED: &[(&str, &str, Comes)] = &[("a line end", "top 1 by A using ta\n", Comes::Syntax(19))];

/// Lines, and the lengths of their fronts that are whole queries.
const FRONTS: &[(&str, (&str, &[usize]), Option<usize>)] = &[
    (
        "weights, costs and room",
        (
            "top 12 by wsum(3*Alpha,40*max(b_1,Alpha)) using ta cost 7 80 room 900",
            &[50, 59, 60, 67, 68, 69],
        ),
        None,
    ),
    (
        "the longest of three words that begin alike",
        ("top 1 by A using taz", &[19, 20]),
        None,
    ),
    (
        "a factor and room",
        ("top 1 by A using theta 12/7 room 20", &[27, 34, 35]),
        None,
    ),
    (
        "a depth and costs",
        ("top 1 by A using early 30 cost 1 20", &[24, 25, 34, 35]),
        None,
    ),
];

/// The length of the first front of a line that comes to something else than a fault at its end, or to one where it is a whole query.
fn first_wrong_front(alloc: Global, given: &(&str, &[usize])) -> Option<usize> {
    let line = given.0.as_bytes();
    for count in 0..=line.len() {
        let expected = if given.1.contains(&count) {
            Comes::Printed
        } else {
            Comes::Syntax(u32::try_from(count).unwrap_or(u32::MAX))
        };
        if comes_of(alloc, &line[..count]) != expected {
            return Some(count);
        }
    }
    None
}

#[test]
fn reads_and_prints(rt: HostRuntime) {
    assert_eq!(rt; wrong_rows(&rt, rt.alloc(), READ, comes_of_row), 0);
    assert_eq!(rt; wrong_rows(&rt, rt.alloc(), ENDED, comes_of_row), 0);
    assert_eq!(rt; wrong_rows(&rt, rt.alloc(), FRONTS, first_wrong_front), 0);
}
