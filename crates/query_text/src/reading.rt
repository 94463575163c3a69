//! Reading of query lines.

ghost use Rattle.std.specs.Prelude.{◌≡◌, ◌≤◌, ◌<◌, ◌+◌, length, OnOk, IfOk, IfErr, Some, None, Err, drop, vec_len};
ghost use Rattle.query_text.specs.Reading.{Reads, IsReadBack};
ghost use Rattle.query_text.specs.Words.{is_whole};
ghost use Rattle.query_text.specs.Draft.{names_of};
ghost use Rattle.query_text.specs.Reached.{Reached, StepTakes, WordFound, IsDraftOf, WordsRead};
ghost use Rattle.query_text.specs.Finish.{Finishes, IsFair, TestsFactor, IsSmall};
ghost use Rattle.monotone_fn.specs.Shown.{tree_of};
ghost use Rattle.monotone_fn.specs.Shape.{NumbersLists};
ghost use Rattle.monotone_fn.specs.Limits.{Makes};
ghost use Rattle.query_text.specs.declared.draft.Draft.{Draft};

use super::algorithm::Algorithm;
use super::course::Course;
use super::draft::Draft;
use super::fault::QueryFault;
use super::names::Names;
use super::parser_state::may_end;
use super::query::Query;
use super::words::{is_whole, longest};
use monotone_fn::{Expr, ExprFault};
use std::alloc::Global;
use topk_base::{MAX_LINE, MAX_LISTS};

/// The query that a line spells, or why it spells none.
///
/// The lists of the query are numbered from 0 in the order in which the line names them first. What
/// is read is lawful, and is printed as the line. What is printed of a lawful query is read as that
/// query.
pub fn read(alloc: Global, bytes: &[u8]) -> Result<Query, QueryFault>
    ensures reads { Reads bytes.now result }
    ensures again { IsReadBack bytes.now result }
{
    if bytes.len() > MAX_LINE as usize {
        return Err(QueryFault::LongLine { limit: MAX_LINE });
    }
    let draft = match read_words(alloc, bytes) {
        Ok(draft) => draft,
        Err(fault) => return Err(fault),
    };
    finish(alloc, draft)
}

/// The query of a draft that a whole line gave.
fn finish(alloc: Global, draft: Draft) -> Result<Query, QueryFault>
    requires few { vec_len draft.names ≤ MAX_LISTS }
    requires numbered { NumbersLists (tree_of draft.operand) }
    ensures made { Finishes draft result }
    ensures small { IsSmall draft }
{
    if let Some(fault) = factor_fault(draft.algorithm) {
        return Err(fault);
    }
    let Draft {
        k,
        names,
        operand,
        algorithm,
        cost,
        room,
        ..
    } = draft;
    match Expr::make(alloc, operand) {
        Ok(expr) => Ok(Query {
            k,
            names: Names::from_vec(names),
            expr,
            algorithm,
            cost,
            room,
        }),
        Err(fault) => Err(refusal_of(fault)),
    }
}

/// Why a line is refused whose algorithm has a factor below 1.
fn factor_fault(algorithm: Algorithm) -> Option<QueryFault>
    ensures { TestsFactor algorithm result }
{
    match algorithm {
        Algorithm::Theta { p, q } if p < q => Some(QueryFault::BadTheta { p, q }),
        _ => None,
    }
}

/// Why a line is refused whose expression is refused.
fn refusal_of(fault: ExprFault) -> QueryFault
    ensures { (draft : Draft) → IsFair draft.algorithm → Makes (tree_of draft.operand) (Err fault)
        → Finishes draft (Err result) }
{
    match fault {
        ExprFault::TooManyNodes { nodes } => QueryFault::TooManyNodes { nodes },
        ExprFault::TooDeep { depth } => QueryFault::TooDeep { depth },
        ExprFault::TooBig { node } => QueryFault::TooBig { node },
        ExprFault::Memory => QueryFault::Memory,
    }
}

/// How many bytes the next word of a line has, where the line goes on at the place `at`. An error is
/// the place up to which the line may go on so.
fn next_word(course: &Course, bytes: &[u8], at: usize) -> Result<usize, u32>
    requires within { at ≤ length bytes.now }
    requires short { length bytes.now ≤ MAX_LINE }
    ensures { WordFound course.now bytes.now at result }
{
    let rest = &bytes[at..];
    let inside = course.is_inside();
    let count = longest(course.stage, inside, rest);
    if is_whole(course.stage, inside, &rest[..count]) {
        return Ok(count);
    }
    Err((at + count) as u32)
}

/// Takes a word into a draft that has no fault yet.
fn take_word(
    alloc: Global,
    course: &Course,
    draft: &mut Draft,
    fault: Option<QueryFault>,
    word: &[u8],
    at: u32,
) -> Result<Option<QueryFault>, QueryFault>
    requires { fault ≡ None → length (names_of draft.old) ≤ MAX_LISTS }
    ensures ok { IfOk result (StepTakes course.now.stage draft.old draft.new fault word.now at) }
    ensures err { IfErr result (λ e. e ≡ QueryFault.Memory) }
{
    if let Some(first) = fault {
        return Ok(Some(first));
    }
    match draft.take(alloc, course.stage, word, at) {
        Ok(()) => Ok(None),
        Err(QueryFault::Memory) => Err(QueryFault::Memory),
        Err(missed) => Ok(Some(missed)),
    }
}

/// Takes the words of a line, one after another, up to its end. Behind the first number or name at
/// fault the words are read for their shape alone.
fn take_words(
    alloc: Global,
    bytes: &[u8],
    course: &mut Course,
    draft: &mut Draft,
) -> Result<(), QueryFault>
    requires short { length bytes.now ≤ MAX_LINE }
    requires start { Reached bytes.now 0 course.old draft.old None }
    ensures ok { OnOk result (IsDraftOf bytes.now draft.new) }
    ensures err { IfErr result (λ fault. WordsRead bytes.now (Err fault)) }
{
    let mut fault = None;
    let mut at = 0;
    while at < bytes.len() || !may_end(course.stage) {
        let count = match next_word(course, bytes, at) {
            Ok(count) => count,
            Err(at) => return Err(QueryFault::Syntax { at }),
        };
        let word = &bytes[at..at + count];
        fault = take_word(alloc, course, draft, fault, word, at as u32)?;
        course.advance(word)?;
        at += count;
    }
    match fault {
        None => Ok(()),
        Some(fault) => Err(fault),
    }
}

/// The draft of a whole line.
fn read_words(alloc: Global, bytes: &[u8]) -> Result<Draft, QueryFault>
    requires { length bytes.now ≤ MAX_LINE }
    ensures { WordsRead bytes.now result }
{
    let mut course = Course::new(alloc);
    let mut draft = Draft::new(alloc);
    let outcome = take_words(alloc, bytes, &mut course, &mut draft);
    drop(course);
    match outcome {
        Ok(()) => Ok(draft),
        Err(fault) => {
            drop(draft);
            Err(fault)
        }
    }
}
