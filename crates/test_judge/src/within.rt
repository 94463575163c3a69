//! Verdicts within a factor, worked out by hand.

ghost use Rattle.std.specs.Prelude.{◌≡◌};
ghost use Rattle.monotone_fn.specs.Shape.{list_count};

use super::verdicts::{FIRST, Question, RUN, transcript_of};
use access_log::{Access, Transcript};
use cert_judge::{JudgeFault, Verdict, judge_within};
use monotone_fn::Expr;
use query_text::read;
use std::alloc::Global;
use test_support::wrong_rows;

/// What is told of an answer.
type Told = Result<Verdict, JudgeFault>;

/// The accesses to two lists of three objects by sum, a factor `p / q`, and the answer of one object.
type Given = (&'static [Access], u64, u64, &'static [u32]);

/// Object 2 has 1500, and another one the greatest aggregate outside.
macro_rules! beaten {
    ($outside:expr, $high:expr) => {
        Some(Ok(Verdict::Beaten {
            inside: 2,
            outside: $outside,
            low: 1500,
            high: $high,
        }))
    };
}

/// After the first depth an unseen object can have 1600, and after the whole run object 1 has 1400, which is 14 fifteenths of 1500. The
/// last factors are 1 and beyond 64 bits once they are multiplied.
const JUDGED: &[(&str, Given, Option<Told>)] = &[
    (
        "the factor of the threshold",
        (&FIRST, 1600, 1500, &[2]),
        Some(Ok(Verdict::Fixes)),
    ),
    (
        "a little less",
        (&FIRST, 1599, 1500, &[2]),
        beaten!(0, 1600),
    ),
    (
        "a greater one",
        (&FIRST, 8, 7, &[2]),
        Some(Ok(Verdict::Fixes)),
    ),
    (
        "1 after the first depth",
        (&FIRST, 1, 1, &[2]),
        beaten!(0, 1600),
    ),
    ("1/0", (&FIRST, 1, 0, &[2]), Some(Ok(Verdict::Fixes))),
    (
        "0 after the first depth",
        (&FIRST, 0, 1, &[2]),
        beaten!(0, 1600),
    ),
    (
        "0/0 is no factor",
        (&FIRST, 0, 0, &[2]),
        Some(Ok(Verdict::Fixes)),
    ),
    (
        "a run that is better than asked",
        (&RUN, 14, 15, &[2]),
        Some(Ok(Verdict::Fixes)),
    ),
    (
        "a little less than it gives",
        (&RUN, 13, 14, &[2]),
        beaten!(1, 1400),
    ),
    (
        "an object that isn't seen",
        (&FIRST, 1600, 1500, &[9]),
        Some(Err(JudgeFault::UnseenAnswer { object: 9 })),
    ),
    (
        "an object too many",
        (&FIRST, 1600, 1500, &[2, 1]),
        Some(Err(JudgeFault::WrongSize { given: 2, k: 1 })),
    ),
    (
        "1 in great numbers",
        (
            &FIRST,
            9_223_372_036_854_775_807,
            9_223_372_036_854_775_807,
            &[2],
        ),
        beaten!(0, 1600),
    ),
    (
        "1 in the greatest numbers",
        (&FIRST, u64::MAX, u64::MAX, &[2]),
        beaten!(0, 1600),
    ),
];

/// What is told of a row's small answer over a transcript.
fn told_over(alloc: Global, log: &Transcript, expr: &Expr, row: &Given) -> Option<Told>
    requires { list_count expr.now ≡ log.now.lists }
{
    let (_, p, q, answer) = *row;
    if answer.len() >= 10 {
        return None;
    }
    Some(judge_within(alloc, log, expr, 1, answer, p, q))
}

/// What is told of a row's answer by its expression. None without memory.
fn told_by(alloc: Global, expr: &Expr, row: &Given) -> Option<Told> {
    let question = Question {
        query: b"",
        lists: 2,
        count: 3,
        accesses: row.0,
        k: 1,
        answer: row.3,
    };
    let Some(log) = transcript_of(alloc, &question) else {
        return None;
    };
    let told = if expr.lists() == log.lists() {
        told_over(alloc, &log, expr, row)
    } else {
        None
    };
    drop(log);
    told
}

/// What is told of a row's answer. None without memory.
fn told_of(alloc: Global, row: &Given) -> Option<Told> {
    let Ok(query) = read(alloc, b"top 1 by sum(A,B) using ta") else {
        return None;
    };
    let told = told_by(alloc, &query.expr, row);
    query.let_go();
    told
}

#[test]
fn judges_within_a_factor(rt: HostRuntime) {
    assert_eq!(rt; wrong_rows(&rt, rt.alloc(), JUDGED, told_of), 0);
}
