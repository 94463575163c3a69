//! A list file whose lines are rows and nothing else, as those of most are: read in one pass over its bytes.

ghost use Rattle.std.specs.Prelude.{◌≡◌, ◌∷◌, IfOk, IfSome, [], option_map};
ghost use Rattle.csv.specs.Reading.{strip_bom};
ghost use Rattle.file_source.specs.PlainRows.{EndsLine, BeginsWithRow, ReadsTo, AreAllRows};

use super::Memory;
use ranked_list::Row;
use std::alloc::Global;
use topk_base::{number_front, number_up_to, rest_after};

/// The header of a list file, with the end of its line.
static HEADER: [u8; 13] = *b"object,grade\n";

/// The byte order mark.
static MARK: [u8; 3] = [0xEF, 0xBB, 0xBF];

/// The text without a byte order mark at its front.
fn without_mark(text: &[u8]) -> &[u8]
    ensures { result.now ≡ strip_bom text.now }
{
    match rest_after(MARK.as_slice(), text) {
        Some(rest) => rest,
        None => text,
    }
}

/// The rows of a text that has no byte order mark, behind the header where there is one.
fn without_header(text: &[u8]) -> &[u8]
    ensures { ReadsTo text.now [] result.now }
{
    match rest_after(HEADER.as_slice(), text) {
        Some(rest) => rest,
        None => text,
    }
}

/// The text after a byte at its front, or None where another byte is there.
fn after(byte: u8, text: &[u8]) -> Option<&[u8]>
    ensures { IfSome result (λ rest. text.now ≡ byte ∷ rest.now) }
{
    let (first, rest) = text.split_first()?;
    if *first == byte {
        return Some(rest);
    }
    None
}

/// The number at the front of a text whose line ends after it, or whose end is there, and the text after the line.
fn last_number(text: &[u8]) -> Option<(u32, &[u8])>
    ensures { IfSome result (λ front. EndsLine text.now front.0 front.1.now) }
{
    if let Some((number, rest)) = number_front(text) {
        let rest = after(b'\n', rest)?;
        return Some((number, rest));
    }
    let number = number_up_to(text, 4_294_967_295)?;
    Some((number as u32, &text[text.len()..]))
}

/// The row whose line stands at the front of a text, and the text after the line. None says nothing: the line may be a row all the same, as one
/// with quotes, with zeros in front or that ends with CR.
fn row_front(text: &[u8]) -> Option<(Row, &[u8])>
    ensures { IfSome result (λ front. BeginsWithRow text.now front.0 front.1.now) }
{
    let (object, rest) = number_front(text)?;
    let rest = after(b',', rest)?;
    let (grade, rest) = last_number(rest)?;
    Some((Row { object, grade }, rest))
}

/// The records of a text whose lines are all rows, under a header or none. None says nothing: they may be rows all the same.
///
/// *Cost*: one pass over the bytes, up to the first line that is anything else.
pub(crate) fn plain_rows(
    alloc: Global,
    text: &[u8],
    room: usize,
) -> Result<Option<Vec<Option<Row>>>, Memory>
    ensures { IfOk result (λ found. IfSome found (λ records. AreAllRows text.now records.items)) }
{
    let mut records = Vec::with_capacity(alloc, room)?;
    let mut rest = without_header(without_mark(text));
    while !rest.is_empty() {
        let Some((row, more)) = row_front(rest) else {
            drop(records);
            return Ok(None);
        };
        records.push(Some(row))?;
        rest = more;
    }
    Ok(Some(records))
}
