//! The texts of the outcomes of lines, put one after another.

ghost use Rattle.std.specs.Prelude.{◌≡◌, ◌≤◌, ◌<◌, ◌+◌, ◌^◌, All, IfSome, Some, length, slice_get, vec_len};
ghost use Rattle.std.specs.List.{list_any};
ghost use Rattle.tk_io.specs.Pieces.{Puts};
ghost use Rattle.line_outcome.specs.LineOutcomes.{CanBeWritten};
ghost use Rattle.catalog_run.specs.Running.{line_text, outcomes_text};
ghost use Rattle.catalog_run.specs.Texts.{AreTexts, is_long};

use super::made_text::MadeText;
use cert_text::{Outcome, put_outcome};
use query_admission::LineOutcome;
use std::alloc::Global;
use std::thread;
use std::thread::Threads;
use tk_io::Put;

/// The number of the first query line of an input.
const FIRST_LINE: u64 = 1;

/// How many lines' texts a thread makes before they are written. With more the threads end at nearer times; each text is held whole, and one
/// of 800,000 accesses has some 20 MB.
const LINES_EACH: usize = 2;

/// How many accesses an answer has at least whose text is worth threads of their own: fewer are put in about the time that these take to begin.
pub const LONG_ANSWER: u64 = 2048;

/// Puts the texts of the outcomes of lines behind the bytes that wait. Long ones are made side by side, by as many threads as there are workers,
/// at most `LINES_EACH` a thread at a time; these are held in memory until they are put. Where memory runs out for one, or there is one
/// worker, a text goes out piece by piece and takes no memory.
pub(crate) fn put_outcomes<W: Threads + Sync, P: Put>(
    rt: &W,
    alloc: Global,
    out: &mut P,
    outcomes: &[LineOutcome],
    workers: u32,
)
    requires { All CanBeWritten outcomes.now }
    ensures { Puts (P.at out.old) (P.at out.new) (outcomes_text 1 outcomes.now) }
{
    let threads = workers.max(1) as usize;
    let most = threads * LINES_EACH;
    let mut number = FIRST_LINE;
    let mut rest = outcomes;
    while !rest.is_empty() {
        let (lines, others) = rest.split_at(most.min(rest.len()));
        put_group(rt, alloc, out, number, lines, threads);
        number += lines.len() as u64;
        rest = others;
    }
}

/// Puts the texts of the outcomes of lines, of which the first has this number, behind the bytes that wait. Some are made before, at the same time.
fn put_group<W: Threads + Sync, P: Put>(
    rt: &W,
    alloc: Global,
    out: &mut P,
    first: u64,
    outcomes: &[LineOutcome],
    threads: usize,
)
    requires written { All CanBeWritten outcomes.now }
    requires numbers { first + length outcomes.now < 2 ^ 64 }
    requires threads { 0 < threads }
    ensures { Puts (P.at out.old) (P.at out.new) (outcomes_text first outcomes.now) }
{
    let texts = texts_of(rt, alloc, first, outcomes, threads);
    for place in 0..outcomes.len() {
        let text = made_at(&texts, place);
        put_line(out, first + place as u64, &outcomes[place], text);
    }
    drop(texts);
}

/// Whether an outcome is an answer of many accesses.
fn is_long(outcome: &Outcome) -> bool
    ensures { result ≡ is_long outcome.now }
{
    match outcome {
        Outcome::Answered(answer) => answer.transcript.len() >= LONG_ANSWER,
        Outcome::Refused(_) => false,
    }
}

/// Whether one of these outcomes is an answer of many accesses.
fn any_long(outcomes: &[LineOutcome]) -> bool
    ensures { result ≡ list_any (λ o. is_long o.outcome) outcomes.now }
{
    outcomes.iter().any(|line| is_long(&line.outcome))
}

/// Places for the texts of so many lines, fewer where memory runs out.
fn places(alloc: Global, count: usize) -> Vec<MadeText>
    ensures { vec_len result ≤ count }
{
    let mut texts = Vec::new(alloc);
    for place in 0..count {
        let Ok(()) = texts.push(MadeText::none()) else {
            return texts;
        };
    }
    texts
}

/// The texts of the outcomes of lines, of which the first has this number, made by so many threads, or none where that isn't worth threads.
/// Where memory runs out for a text it isn't made.
fn texts_of<W: Threads + Sync>(
    rt: &W,
    alloc: Global,
    first: u64,
    outcomes: &[LineOutcome],
    threads: usize,
) -> Vec<MadeText>
    requires written { All CanBeWritten outcomes.now }
    requires numbers { first + length outcomes.now < 2 ^ 64 }
    requires threads { 0 < threads }
    ensures { AreTexts first outcomes.now result.items }
{
    if threads < 2 || outcomes.len() < 2 || !any_long(outcomes) {
        return Vec::new(alloc);
    }
    let mut texts = places(alloc, outcomes.len());
    make_texts(rt, alloc, first, outcomes, &mut texts, threads);
    texts
}

/// Makes the texts of the outcomes of lines, of which the first has this number, by so many threads, for as many as there are places.
fn make_texts<W: Threads + Sync>(
    rt: &W,
    alloc: Global,
    first: u64,
    outcomes: &[LineOutcome],
    texts: &mut [MadeText],
    threads: usize,
)
    requires written { All CanBeWritten outcomes.now }
    requires numbers { first + length outcomes.now < 2 ^ 64 }
    requires places { length texts.old ≤ length outcomes.now }
    requires threads { 0 < threads }
    ensures { AreTexts first outcomes.now texts.new }
{
    thread::for_each_mut(
        rt,
        texts,
        threads,
        &|place, text: &mut MadeText|
            requires { All CanBeWritten outcomes.now × (place < length outcomes.now) × (first + length outcomes.now < 2 ^ 64) }
            ensures { (line : LineOutcome) → slice_get outcomes.entry.now place ≡ Some line → IfSome text.exit.now (λ made. made ≡ line_text (first + place) line) }
        { text.make(alloc, first + place as u64, &outcomes[place]) },
    );
}

/// The text at a place, where one was made.
fn made_at(texts: &[MadeText], place: usize) -> Option<&[u8]>
    ensures { IfSome result (λ text. slice_get texts.now place ≡ Some (Some text.now)) }
{
    texts.get(place)?.text()
}

/// Puts the text of the outcome of the line with this number behind the bytes that wait: the one that was made, where one was.
fn put_line<P: Put>(out: &mut P, number: u64, line: &LineOutcome, text: Option<&[u8]>)
    requires written { CanBeWritten line.now }
    requires text { IfSome text (λ made. made.now ≡ line_text number line.now) }
    ensures { Puts (P.at out.old) (P.at out.new) (line_text number line.now) }
{
    match text {
        Some(text) => out.put(text),
        None => put_outcome(
            out,
            number,
            line.query.as_ref(),
            line.count,
            line.versions.as_slice(),
            &line.outcome,
        ),
    }
}
