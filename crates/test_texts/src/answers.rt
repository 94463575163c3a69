//! Answers that are written.

use super::{holds, let_go};
use access_log::{Access, Item, Items, Transcript};
use cert_text::{Outcome, write_outcome};
use machine_base::Answer;
use query_text::{Query, read};
use std::alloc::Global;
use test_support::{
    Counting, FIRST_ACCESSES, FIRST_ITEM, FIRST_QUERY, FIRST_TEXT, sorted, wrong_texts,
};
use tk_io::{MemSink, Sink};

/// A query without costs, how many objects it is asked over, the one object of its answer, the accesses that it made, and the
/// versions of its lists.
type Example<'a> = (&'a [u8], u32, Item, &'a [Access], &'a [u64]);

/// Takes accesses, as far as there is memory, and tells whether it took all.
fn takes_all(transcript: &mut Transcript, accesses: &[Access]) -> bool {
    for access in accesses {
        if transcript.push(*access).is_err() {
            return false;
        }
    }
    true
}

/// The answer of an example before any access, whose query has so many lists.
fn answer_of(alloc: Global, lists: u8, example: &Example<'_>) -> Option<Answer> {
    let (_, count, item, _, _) = *example;
    if lists == 0 || lists > 8 || count == 0 || count > 200_000 {
        return None;
    }
    let items = [item].to_vec(alloc).ok()?;
    let transcript = Transcript::make(alloc, lists, count).ok()?;
    Some(Answer {
        items: Items::from_vec(items),
        transcript,
    })
}

/// Whether the answer of an example is written, whose query this is. None where the query has costs, or the answer is longer than
/// any here or has no item, or a list has no version.
fn is_written_of<K: Sink>(
    alloc: Global,
    query: &Query,
    example: &Example<'_>,
    out: &mut K,
) -> Option<bool> {
    let mut answer = answer_of(alloc, query.expr.lists(), example)?;
    let is_taken = takes_all(&mut answer.transcript, example.3);
    let is_short = query.cost.is_none() && answer.transcript.len() < 4000;
    let is_versioned = example.4.len() == query.names.len() as usize;
    let is_over = query.expr.lists() == answer.transcript.lists() && answer.items.len() > 0;
    let outcome = Outcome::Answered(answer);
    let is_ok = if is_taken && is_short && is_versioned && is_over {
        Some(write_outcome(out, 1, Some(query), example.1, example.4, &outcome).is_ok())
    } else {
        None
    };
    let_go(outcome);
    is_ok
}

/// Whether the answer of an example is written.
fn is_written<K: Sink>(alloc: Global, example: &Example<'_>, out: &mut K) -> Option<bool> {
    let query = read(alloc, example.0).ok()?;
    let is_so = is_written_of(alloc, &query, example, out);
    query.let_go();
    is_so
}

/// The first example.
static FIRST: Example<'static> = (FIRST_QUERY, 3, FIRST_ITEM, &FIRST_ACCESSES, &[0, 0]);

/// Whether writing the first example ends so where there is such room and these calls fail: with a success or not, and so
/// many bytes of its text.
fn ends_so(alloc: Global, room: u32, fails: &[u64], expected: (bool, usize)) -> bool {
    let Ok(mut out) = MemSink::make(alloc, room, fails) else {
        return false;
    };
    let is_ok = is_written(alloc, &FIRST, &mut out);
    let is_front = Some(out.taken()) == FIRST_TEXT.as_bytes().get(..expected.1);
    drop(out);
    is_ok == Some(expected.0) && is_front
}

/// All of the 186 bytes, and fronts of them where a call fails or there is too little room.
#[test]
fn writes_the_first_example(rt: HostRuntime) {
    let whole = ends_so(rt.alloc(), 186, &[], (true, 186));
    let fronts = ends_so(rt.alloc(), 186, &[1], (false, 0))
        && ends_so(rt.alloc(), 185, &[], (false, 185));
    holds(&rt, whole && fronts);
}

/// The versions of both lists of the first example, and its text up to its count then: version 0 has no line.
const VERSIONED: &[(&str, &'static [u64], &str)] = &[
    (
        "of the first list",
        &[7, 0],
        "certificate 1\nquery top 1 by sum(A,B) using ta\ncount 3\nversion A 7\n",
    ),
    (
        "of the second list",
        &[0, 7],
        "certificate 1\nquery top 1 by sum(A,B) using ta\ncount 3\nversion B 7\n",
    ),
    (
        "of both",
        &[1, u64::MAX],
        "certificate 1\nquery top 1 by sum(A,B) using ta\ncount 3\nversion A 1\nversion B 18446744073709551615\n",
    ),
];

/// What stands behind the count of the first example.
const BEHIND_COUNT: usize = 55;

/// The text of the first example over lists of these versions, up to its answer. None where it doesn't go on as without versions.
fn text_with(alloc: Global, versions: &&'static [u64]) -> Option<Vec<u8>> {
    let Ok(mut out) = MemSink::make(alloc, 400, &[]) else {
        return None;
    };
    let accesses = FIRST_ACCESSES.as_slice();
    let example = (FIRST_QUERY, 3, FIRST_ITEM, accesses, *versions);
    let is_ok = is_written(alloc, &example, &mut out) == Some(true);
    let rest = FIRST_TEXT.as_bytes().get(BEHIND_COUNT..).unwrap_or(b"");
    let text = match out.taken().strip_suffix(rest) {
        Some(front) if is_ok => front.to_vec(alloc).ok(),
        _ => None,
    };
    drop(out);
    text
}

#[test]
fn writes_the_versions_of_lists(rt: HostRuntime) {
    assert_eq!(rt; wrong_texts(&rt, rt.alloc(), VERSIONED, text_with), 0);
}

/// Adds 3,000 tied objects, as far as there is memory, and tells whether it added all.
fn adds_ties(accesses: &mut Vec<Access>) -> bool {
    for number in 0..3000 {
        let access = sorted(0, 1_000_000_000 + number, 500_000);
        if accesses.push(access).is_err() {
            return false;
        }
    }
    true
}

/// The first of the tied objects.
const TIED: Item = Item {
    object: 1_000_000_000,
    low: 500_000,
    high: 500_000,
};

/// Whether the answer of a query for the first of 3,000 tied objects is written, all of which it read.
fn is_long_written(alloc: Global, out: &mut Counting) -> bool {
    let mut accesses = Vec::new(alloc);
    let is_so = adds_ties(&mut accesses)
        && is_written(
            alloc,
            &(b"top 1 by A using ta", 3000, TIED, &accesses, &[0]),
            out,
        ) == Some(true);
    drop(accesses);
    is_so
}

/// 3,000 lines of 22 bytes with 134 bytes around them go out in 9 writes.
#[test]
fn writes_a_certificate_in_pieces(rt: HostRuntime) {
    let mut out = Counting::make();
    let is_ok = is_long_written(rt.alloc(), &mut out);
    holds(&rt, is_ok && out.bytes == 66_134 && out.writes == 9);
}
