//! A bundle that is gathered from lists in memory, without a text.

ghost use Rattle.std.specs.Prelude.{◌≡◌, ◌++◌, ◌∷◌, [], ℕ, List, IfOk, IfErr, map};
ghost use Rattle.bundle_text.specs.Bundle.{Content, content, Spells, IsReadAs, IsCause, bundle_lines, row_line, list_line, section};
ghost use Rattle.bundle_text.specs.Given.{row_given, rows_given, content_given};
ghost use Rattle.bundle_text.specs.Reading.{part_of, part_read, query_part};
ghost use Rattle.bundle_text.specs.Tracking.{front_of, IsTracked};
ghost use Rattle.bundle_text.specs.Gathering.{IsCounted, TakesLines, EndsGathering, IsGathered, lines_given};

use super::bundle::{Bundle, BundleFault};
use super::given::{GivenList, GivenRow};
use super::line::Line;
use super::reader::Reader;
use ranked_list::Row;
use std::alloc::Global;
use topk_base::is_name;

/// Takes a row in, whose line has this number, and gives the number of the next line.
fn add_row(
    alloc: Global,
    reader: &mut Reader,
    row: GivenRow,
    number: u64,
) -> Result<u64, BundleFault>
    requires tracked { IsTracked reader.old }
    requires counted { IsCounted (front_of reader.old) number }
    ensures { TakesLines (row_line (row_given row) ∷ []) (front_of reader.old) number reader.new result }
{
    let row = Row {
        object: row.object,
        grade: row.grade,
    };
    reader.take_numbered(alloc, Line::Entry(row), number)
}

/// What the line is that begins a list of this name.
fn heading(name: &[u8]) -> Line<'_>
    ensures is { part_read result ≡ part_of (list_line name.now) }
    ensures other { (text : List ℕ) → part_read result ≡ query_part text → ⊥ }
{
    if is_name(name) {
        return Line::Heading(name);
    }
    Line::Other
}

/// Takes rows in, the first of which has this number, and gives the number of the next line.
fn add_rows(
    alloc: Global,
    reader: &mut Reader,
    rows: &[GivenRow],
    number: u64,
) -> Result<u64, BundleFault>
    requires tracked { IsTracked reader.old }
    requires counted { IsCounted (front_of reader.old) number }
    ensures { TakesLines (map row_line (rows_given rows.now)) (front_of reader.old) number reader.new result }
{
    let mut next = number;
    for place in 0..rows.len() {
        match add_row(alloc, reader, rows[place], next) {
            Ok(after) => next = after,
            Err(fault) => return Err(fault),
        }
    }
    Ok(next)
}

/// Takes a list in, whose heading has this number, and gives the number of the next line.
fn add_list(
    alloc: Global,
    reader: &mut Reader,
    list: &GivenList,
    number: u64,
) -> Result<u64, BundleFault>
    requires tracked { IsTracked reader.old }
    requires counted { IsCounted (front_of reader.old) number }
    ensures { TakesLines (section list.now.name.now (rows_given list.now.rows.now)) (front_of reader.old) number reader.new result }
{
    match reader.take_numbered(alloc, heading(list.name), number) {
        Ok(next) => add_rows(alloc, reader, list.rows, next),
        Err(fault) => Err(fault),
    }
}

/// Takes lists in, the heading of the first of which has this number, and gives the number of the next line.
fn add_lists(
    alloc: Global,
    reader: &mut Reader,
    lists: &[GivenList],
    number: u64,
) -> Result<u64, BundleFault>
    requires tracked { IsTracked reader.old }
    requires counted { IsCounted (front_of reader.old) number }
    ensures { TakesLines (lines_given lists.now) (front_of reader.old) number reader.new result }
{
    let mut next = number;
    for place in 0..lists.len() {
        match add_list(alloc, reader, &lists[place], next) {
            Ok(after) => next = after,
            Err(fault) => return Err(fault),
        }
    }
    Ok(next)
}

/// Takes in the rows of the first list, whose heading was line 1, and the other lists, and gives the number of the next line.
fn add_all(
    alloc: Global,
    reader: &mut Reader,
    rows: &[GivenRow],
    lists: &[GivenList],
) -> Result<u64, BundleFault>
    requires tracked { IsTracked reader.old }
    requires counted { IsCounted (front_of reader.old) 2 }
    ensures { TakesLines (map row_line (rows_given rows.now) ++ lines_given lists.now) (front_of reader.old) 2 reader.new result }
{
    match add_rows(alloc, reader, rows, 2) {
        Ok(next) => add_lists(alloc, reader, lists, next),
        Err(fault) => Err(fault),
    }
}

/// The bundle of the lists that were taken in and a query, whose line has this number.
fn end_with(alloc: Global, reader: Reader, query: &[u8], number: u64) -> Result<Bundle, BundleFault>
    ensures { EndsGathering (front_of reader) number query.now result }
{
    if !reader.is_whole() || query.contains(&b'\n') {
        drop(reader);
        return Err(BundleFault::BadBundle { line: number });
    }
    Ok(reader.end(alloc, query)?)
}

/// The bundle of lists and a query.
fn gather(alloc: Global, lists: &[GivenList], query: &[u8]) -> Result<Bundle, BundleFault>
    ensures { IsGathered (lines_given lists.now) query.now result }
{
    let Some((first, more)) = lists.split_first() else {
        return Err(BundleFault::BadBundle { line: 1 });
    };
    if !is_name(first.name) {
        return Err(BundleFault::BadBundle { line: 1 });
    }
    let mut reader = Reader::open(alloc, first.name)?;
    match add_all(alloc, &mut reader, first.rows, more) {
        Ok(number) => end_with(alloc, reader, query, number),
        Err(fault) => {
            drop(reader);
            Err(fault)
        }
    }
}

/// Gathers a bundle of lists that a caller has in memory, each with its rows from the top down, and of a query. It is the bundle that
/// [`read_bundle`](super::read_bundle) reads of their lines: of each list the line `list NAME` and a line `OBJECT,GRADE` for each row,
/// and the line `query TEXT`. No text is written.
///
/// *Cost*: for each row a look-up of its object by number.
///
/// # Errors
///
/// [`BundleFault::BadBundle`] with the first of these lines with which no bundle begins. [`BundleFault::Memory`] where memory is refused.
pub fn gather_bundle(
    alloc: Global,
    lists: &[GivenList],
    query: &[u8],
) -> Result<Bundle, BundleFault>
    // What is gathered is a bundle, and the lines are those that spell it.
    ensures found { IfOk result (λ bundle. Spells (bundle_lines (content_given lists.now query.now)) (content bundle)) }
    // Where the lines spell a bundle it is gathered, unless memory was refused.
    ensures reads { (c : Content) → Spells (bundle_lines (content_given lists.now query.now)) c → IsReadAs c result }
    // Else the first line is named with which no bundle begins.
    ensures fault { IfErr result (IsCause (bundle_lines (content_given lists.now query.now))) }
{
    gather(alloc, lists, query)
}
