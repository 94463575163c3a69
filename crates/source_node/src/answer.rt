//! What a list answers, and how it is written.

ghost use Rattle.std.specs.Prelude.{◌≡◌, ◌≤◌, [], Ok, IfOk, IfErr, OnOk};
ghost use Rattle.source_api.specs.Counting.{NoneFell};
ghost use Rattle.source_node.specs.Asking.{HasCount};
ghost use Rattle.source_node.specs.Serving.{seen, GivesPage, GivesRows, StopsRows, Asks, text_of};

use super::Asked;
use page_json::{write_grade, write_page, write_size};
use ranked_list::Row;
use source_api::{FailKind, Source, Trouble};
use std::alloc::Global;
use topk_base::Memory;

/// What a list answers to what is asked of it.
#[derive(Drop)]
pub enum Answer {
    /// How many rows it has.
    Count(u64),
    /// Rows.
    Rows(Vec<Row>),
    /// The grade of an object, or None where the list hasn't it.
    Grade(Option<u32>),
}

/// Asks a source. A page is asked for until all its rows are there, an empty one came, or no place is left.
pub(crate) fn ask<S: Source>(alloc: Global, source: &mut S, asked: Asked) -> Result<Answer, Trouble>
    requires { HasCount asked }
    ensures list { S.list source.new ≡ S.list source.old }
    ensures states { S.states source.new ≡ S.states source.old }
    ensures later { NoneFell (S.counts source.old) (S.counts source.new) }
    ensures asks { Asks asked
        (seen (S.list source.old) (S.counts source.old) (S.calls source.old) (S.at_hand source.old) (S.states source.old))
        (seen (S.list source.new) (S.counts source.new) (S.calls source.new) (S.at_hand source.new) (S.states source.new))
        result }
{
    match asked {
        Asked::Size => match source.size(alloc) {
            Ok(count) => Ok(Answer::Count(count)),
            Err(why) => Err(why),
        },
        Asked::Page { from, count } => ask_rows(alloc, source, from, count),
        Asked::Grade { object } => match source.grade(alloc, object) {
            Ok(grade) => Ok(Answer::Grade(grade)),
            Err(why) => Err(why),
        },
    }
}

/// Asks a source for all rows of a part of its list.
fn ask_rows<S: Source>(
    alloc: Global,
    source: &mut S,
    from: u32,
    count: u32,
) -> Result<Answer, Trouble>
    ensures list { S.list source.new ≡ S.list source.old }
    ensures states { S.states source.new ≡ S.states source.old }
    ensures later { NoneFell (S.counts source.old) (S.counts source.new) }
    ensures asks { Asks (Asked.Page from count)
        (seen (S.list source.old) (S.counts source.old) (S.calls source.old) (S.at_hand source.old) (S.states source.old))
        (seen (S.list source.new) (S.counts source.new) (S.calls source.new) (S.at_hand source.new) (S.states source.new))
        result }
{
    let mut rows = Vec::new(alloc);
    match add_rows(alloc, source, from, count, &mut rows) {
        Ok(()) => Ok(Answer::Rows(rows)),
        Err(why) => {
            drop(rows);
            Err(why)
        }
    }
}

/// Adds the rows of a part of a list, page by page.
fn add_rows<S: Source>(
    alloc: Global,
    source: &mut S,
    from: u32,
    count: u32,
    rows: &mut Vec<Row>,
) -> Result<(), Trouble>
    requires { rows.old.items ≡ [] }
    ensures list { S.list source.new ≡ S.list source.old }
    ensures states { S.states source.new ≡ S.states source.old }
    ensures at_hand { S.at_hand source.new ≡ S.at_hand source.old }
    ensures later { NoneFell (S.counts source.old) (S.counts source.new) }
    ensures rows { OnOk result (GivesRows from count (S.list source.old) (S.counts source.old) (S.counts source.new)
        (S.calls source.old) (S.calls source.new) rows.new.items) }
    ensures stops { IfErr result (StopsRows from count (S.counts source.old) (S.counts source.new) (S.calls source.old) (S.calls source.new)) }
{
    while rows.len() < count as usize {
        let came = rows.len() as u32;
        let Some(place) = from.checked_add(came) else {
            return Ok(());
        };
        match add_page(alloc, source, place, count - came, rows) {
            Ok(len) => {
                if len == 0 {
                    return Ok(());
                }
            }
            Err(why) => return Err(why),
        }
    }
    Ok(())
}

/// Adds a page of a list, and says how many rows it has.
fn add_page<S: Source>(
    alloc: Global,
    source: &mut S,
    from: u32,
    count: u32,
    rows: &mut Vec<Row>,
) -> Result<usize, Trouble>
    requires { 1 ≤ count }
    ensures list { S.list source.new ≡ S.list source.old }
    ensures states { S.states source.new ≡ S.states source.old }
    ensures at_hand { S.at_hand source.new ≡ S.at_hand source.old }
    ensures later { NoneFell (S.counts source.old) (S.counts source.new) }
    ensures page { IfOk result (λ len. GivesPage from count (S.list source.old) (S.counts source.old) (S.counts source.new)
        (S.calls source.old) (S.calls source.new) rows.old.items rows.new.items len) }
    ensures stops { IfErr result (StopsRows from count (S.counts source.old) (S.counts source.new) (S.calls source.old) (S.calls source.new)) }
{
    match source.page(alloc, from, count) {
        Ok(page) => match rows.extend_from_slice(&page) {
            Ok(()) => Ok(page.len()),
            Err(_) => Err(Trouble::Fail(FailKind::Memory)),
        },
        Err(why) => Err(why),
    }
}

/// The text of an answer, at a version of the list.
pub(crate) fn write_answer(alloc: Global, version: u64, answer: &Answer) -> Result<Vec<u8>, Memory>
    ensures { IfOk result (λ text. text.items ≡ text_of version answer.now) }
{
    match answer {
        Answer::Count(count) => write_size(alloc, version, *count),
        Answer::Rows(rows) => write_page(alloc, version, rows),
        Answer::Grade(grade) => write_grade(alloc, version, *grade),
    }
}
