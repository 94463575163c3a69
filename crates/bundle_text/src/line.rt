//! What one line of a bundle is.

ghost use Rattle.std.specs.Prelude.{◌≡◌};
ghost use Rattle.topk_base.specs.Numbers.{number_up_to};
ghost use Rattle.topk_base.specs.Cuts.{cut_at};
ghost use Rattle.bundle_text.specs.Reading.{part_of, part_read, row_part_of};

use ranked_list::Row;
use topk_base::{cut_at, is_name, number_up_to, rest_after};

/// A line of a bundle.
#[derive(Clone, Copy)]
pub(crate) enum Line<'t> {
    /// The line that begins a list, with the list's name.
    Heading(&'t [u8]),
    /// A row of a list.
    Entry(Row),
    /// The line of the query, with its text.
    Query(&'t [u8]),
    /// No line of a bundle.
    Other,
}

/// The number of 32 bits that a text spells, if it spells one.
fn number_of(text: &[u8]) -> Option<u32>
    ensures { result ≡ number_up_to 4294967295 text.now }
{
    match number_up_to(text, 4_294_967_295) {
        Some(number) => Some(number as u32),
        None => None,
    }
}

/// The row that a line spells, an object and a grade with a comma between.
fn row_line(line: &[u8]) -> Line<'_>
    ensures { part_read result ≡ row_part_of (cut_at 44 line.now) }
{
    let Some((object, grade)) = cut_at(line, b',') else {
        return Line::Other;
    };
    match (number_of(object), number_of(grade)) {
        (Some(object), Some(grade)) => Line::Entry(Row { object, grade }),
        _ => Line::Other,
    }
}

/// What a line is.
pub(crate) fn line_of(line: &[u8]) -> Line<'_>
    ensures { part_read result ≡ part_of line.now }
{
    if let Some(name) = rest_after(b"list ", line) {
        if is_name(name) {
            return Line::Heading(name);
        }
        return Line::Other;
    }
    if let Some(text) = rest_after(b"query ", line) {
        return Line::Query(text);
    }
    row_line(line)
}
