//! Verdicts worked out by hand.

ghost use Rattle.std.specs.Prelude.{◌≡◌};
ghost use Rattle.monotone_fn.specs.Shape.{list_count};

use access_log::{Access, Transcript};
use cert_judge::{JudgeFault, Verdict, counter_table, judge};
use monotone_fn::Expr;
use query_text::read;
use ranked_list::{MemList, is_table};
use std::alloc::Global;
use test_support::{random_row, sorted_row, wrong_rows};

/// The expression of a query over so many lists of so many objects, a transcript, and an answer of k objects.
#[derive(Clone, Copy)]
pub struct Question {
    /// The query's text.
    pub query: &'static [u8],
    /// How many lists it names.
    pub lists: u8,
    /// How many objects each of them has.
    pub count: u32,
    /// The accesses.
    pub accesses: &'static [Access],
    /// How many objects are asked for.
    pub k: u32,
    /// The answer.
    pub answer: &'static [u32],
}

/// What is told of an answer.
type Told = Result<Verdict, JudgeFault>;

/// The text of a query, and how many lists it names.
type Asked = (&'static [u8], u8);

/// What is asked, how many objects there are, the accesses, k, and the answer.
type Given = (Asked, u32, &'static [Access], u32, &'static [u32]);

/// How many objects there are, the accesses, and the sums of objects in the table that beats object 2.
type Countered = (u32, &'static [Access], &'static [(u32, u64)]);

/// What is told of an answer, and the lists of the table that beats it, or none.
#[derive(Drop)]
struct Judged {
    told: Told,
    against: Vec<MemList>,
}

/// Takes accesses, and tells whether it took all.
fn takes_all(log: &mut Transcript, accesses: &[Access]) -> bool {
    for access in accesses {
        if log.push(*access).is_err() {
            return false;
        }
    }
    true
}

/// The accesses of a question over a few small lists. None where no table agrees with them, and without memory.
pub fn transcript_of(alloc: Global, question: &Question) -> Option<Transcript> {
    let (lists, count) = (question.lists, question.count);
    if lists == 0 || lists >= 5 || count == 0 || count >= 10 {
        return None;
    }
    let Ok(mut log) = Transcript::make(alloc, lists, count) else {
        return None;
    };
    if takes_all(&mut log, question.accesses) {
        Some(log)
    } else {
        drop(log);
        None
    }
}

/// What is told of a question's small answer over a transcript. None without memory.
fn verdict_over(alloc: Global, log: &Transcript, expr: &Expr, question: &Question) -> Option<Judged>
    requires { list_count expr.now ≡ log.now.lists }
{
    if question.answer.len() >= 10 {
        return None;
    }
    let told = judge(alloc, log, expr, question.k, question.answer);
    let against = match told {
        Ok(Verdict::Beaten { inside, .. }) if log.is_seen(inside) => {
            match counter_table(alloc, log, inside) {
                Ok(table) => table,
                Err(_) => return None,
            }
        }
        _ => Vec::new(alloc),
    };
    Some(Judged { told, against })
}

/// What is told of a question's answer by its expression, of as many lists as the query names. None without memory.
fn verdict_by(alloc: Global, expr: &Expr, question: &Question) -> Option<Judged> {
    let Some(log) = transcript_of(alloc, question) else {
        return None;
    };
    let judged = if expr.lists() == log.lists() {
        verdict_over(alloc, &log, expr, question)
    } else {
        None
    };
    drop(log);
    judged
}

/// What is told of a question's answer. None without memory.
fn verdict_of(alloc: Global, question: &Question) -> Option<Judged> {
    let Ok(query) = read(alloc, question.query) else {
        return None;
    };
    let judged = verdict_by(alloc, &query.expr, question);
    query.let_go();
    judged
}

/// The sum of an object's grades.
fn sum_of(lists: &[MemList], object: u32) -> u64 {
    let mut sum: u64 = 0;
    for list in lists {
        for place in 0..list.len() {
            match list.get(place) {
                Some(row) if row.object == object => {
                    sum = sum.saturating_add(u64::from(row.grade));
                }
                _ => {}
            }
        }
    }
    sum
}

/// Whether lists are a table that gives objects these sums.
fn has_sums(alloc: Global, lists: &[MemList], sums: &[(u32, u64)]) -> bool {
    for (object, sum) in sums {
        if sum_of(lists, *object) != *sum {
            return false;
        }
    }
    match is_table(alloc, lists) {
        Ok(is_table) => is_table,
        Err(_) => false,
    }
}

/// What is told of the answer of a row. None without memory.
fn told_of(alloc: Global, given: &Given) -> Option<Told> {
    let ((query, lists), count, accesses, k, answer) = *given;
    let question = Question {
        query,
        lists,
        count,
        accesses,
        k,
        answer,
    };
    let judged = verdict_of(alloc, &question)?;
    let told = judged.told;
    drop(judged);
    Some(told)
}

/// Two lists by sum.
const SUM: Asked = (b"top 1 by sum(A,B) using ta", 2);

/// A whole run of the threshold algorithm.
pub const RUN: [Access; 7] = [
    sorted_row!(0, 1, 900),
    sorted_row!(1, 2, 700),
    random_row!(1, 1, 500),
    random_row!(0, 2, 800),
    sorted_row!(0, 2, 800),
    sorted_row!(1, 3, 600),
    random_row!(0, 3, 100),
];

/// Its first depth.
pub const FIRST: [Access; 4] = [
    sorted_row!(0, 1, 900),
    sorted_row!(1, 2, 700),
    random_row!(1, 1, 500),
    random_row!(0, 2, 800),
];

/// The rows of its first depth.
const ROWS: [Access; 2] = [sorted_row!(0, 1, 900), sorted_row!(1, 2, 700)];

/// The two of the runs that are beaten.
const COUNTERED: &[(&str, Countered, bool)] = &[
    (
        "by an unseen object",
        (3, &FIRST, &[(2, 1500), (0, 1600), (1, 1400)]),
        true,
    ),
    (
        "by an object that was seen",
        (2, &ROWS, &[(2, 700), (1, 1600)]),
        true,
    ),
];

/// Whether what beats object 2 is a table that gives objects these sums.
fn is_countered(alloc: Global, row: &Countered) -> bool {
    let (query, lists) = SUM;
    let (count, accesses, sums) = *row;
    let question = Question {
        query,
        lists,
        count,
        accesses,
        k: 1,
        answer: &[2],
    };
    let Some(judged) = verdict_of(alloc, &question) else {
        return false;
    };
    let is_so = has_sums(alloc, &judged.against, sums);
    drop(judged);
    is_so
}

/// Three objects of one grade in the first of two lists.
const NINES: &[Access] = &[
    sorted_row!(0, 5, 9),
    sorted_row!(0, 4, 9),
    sorted_row!(0, 3, 9),
];

/// An object with one grade of 9 is beaten by another one.
macro_rules! beaten {
    ($inside:expr, $outside:expr) => {
        Some(Ok(Verdict::Beaten {
            inside: $inside,
            outside: $outside,
            low: 9,
            high: 1_000_009,
        }))
    };
}

/// One list.
const ONE: Asked = (b"top 1 by A using ta", 1);

const TAME: &[Access] = &[sorted_row!(0, 9, 0)];

const WILD: &[Access] = &[sorted_row!(0, 9, 0), random_row!(0, 8, 0)];

const WILD_AT_ONCE: &[Access] = &[random_row!(0, 9, 0), sorted_row!(0, 9, 0)];

/// The greatest aggregates of 64 bits.
const GREATEST: Asked = (
    b"top 1 by sum(wsum(4611686018427*A),wsum(4611686018427*B)) using ta",
    2,
);

/// What is told of answers.
const JUDGED: &[(&str, Given, Option<Told>)] = &[
    (
        "a whole run",
        (SUM, 3, &RUN, 1, &[2]),
        Some(Ok(Verdict::Fixes)),
    ),
    (
        "its first depth: an unseen object is better",
        (SUM, 3, &FIRST, 1, &[2]),
        Some(Ok(Verdict::Beaten {
            inside: 2,
            outside: 0,
            low: 1500,
            high: 1600,
        })),
    ),
    (
        "its first depth, where no object is unseen",
        (SUM, 2, &FIRST, 1, &[2]),
        Some(Ok(Verdict::Fixes)),
    ),
    (
        "its first rows: a seen object is better",
        (SUM, 2, &ROWS, 1, &[2]),
        Some(Ok(Verdict::Beaten {
            inside: 2,
            outside: 1,
            low: 700,
            high: 1600,
        })),
    ),
    (
        "one of three of a grade, and an unseen object",
        (SUM, 4, NINES, 1, &[5]),
        beaten!(5, 0),
    ),
    (
        "two of three of a grade: the smaller is inside",
        (SUM, 4, NINES, 2, &[5, 4]),
        beaten!(4, 0),
    ),
    (
        "the greatest of three of a grade",
        (SUM, 3, NINES, 1, &[5]),
        beaten!(5, 3),
    ),
    (
        "the least of three of a grade",
        (SUM, 3, NINES, 1, &[3]),
        beaten!(3, 4),
    ),
    (
        "one object",
        (ONE, 1, TAME, 1, &[9]),
        Some(Ok(Verdict::Fixes)),
    ),
    (
        "an answer that isn't seen",
        (ONE, 1, &[], 1, &[9]),
        Some(Err(JudgeFault::UnseenAnswer { object: 9 })),
    ),
    (
        "an object twice",
        (ONE, 1, TAME, 1, &[9, 9]),
        Some(Err(JudgeFault::WrongSize { given: 2, k: 1 })),
    ),
    (
        "an object twice for k 2",
        (ONE, 1, TAME, 2, &[9, 9]),
        Some(Err(JudgeFault::WrongSize { given: 2, k: 2 })),
    ),
    (
        "an object twice that isn't seen",
        (ONE, 2, &[], 2, &[7, 7]),
        Some(Err(JudgeFault::WrongSize { given: 2, k: 2 })),
    ),
    (
        "too few",
        (ONE, 1, TAME, 2, &[9]),
        Some(Err(JudgeFault::WrongSize { given: 1, k: 2 })),
    ),
    (
        "the second isn't seen",
        (ONE, 1, TAME, 2, &[9, 3]),
        Some(Err(JudgeFault::UnseenAnswer { object: 3 })),
    ),
    (
        "the first of two that aren't seen",
        (ONE, 3, TAME, 3, &[4, 9, 3]),
        Some(Err(JudgeFault::UnseenAnswer { object: 4 })),
    ),
    (
        "a wild guess before all else",
        (ONE, 3, WILD, 3, &[4, 4, 9]),
        Some(Err(JudgeFault::WildGuess { at: 2 })),
    ),
    (
        "a wild guess at once",
        (ONE, 3, WILD_AT_ONCE, 1, &[9]),
        Some(Err(JudgeFault::WildGuess { at: 1 })),
    ),
    (
        "no object",
        (ONE, 3, TAME, 0, &[]),
        Some(Ok(Verdict::Fixes)),
    ),
    (
        "one of three",
        (ONE, 3, TAME, 1, &[9]),
        Some(Ok(Verdict::Fixes)),
    ),
    (
        "the greatest aggregates",
        (
            GREATEST,
            2,
            &[sorted_row!(0, 1, 1_000_000), sorted_row!(1, 2, 1_000_000)],
            1,
            &[1],
        ),
        Some(Ok(Verdict::Beaten {
            inside: 1,
            outside: 2,
            low: 4_611_686_018_427_000_000,
            high: 9_223_372_036_854_000_000,
        })),
    ),
];

/// A run and its beginnings, ties, each fault, and the greatest aggregates. What beats an answer is a table: the object inside has its
/// low there, and each other object its high.
#[test]
fn judges_each_row(rt: HostRuntime) {
    assert_eq!(rt; wrong_rows(&rt, rt.alloc(), JUDGED, told_of), 0);
    assert_eq!(rt; wrong_rows(&rt, rt.alloc(), COUNTERED, is_countered), 0);
}
