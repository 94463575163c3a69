//! The first line of a bundle's text, of which a row is read in one pass over its bytes.

ghost use Rattle.std.specs.Prelude.{◌≡◌, [], ◌∷◌, IfSome, MatchOption};
ghost use Rattle.bundle_text.specs.Reading.{part_read, row_part};
ghost use Rattle.bundle_text.specs.Fronts.{BeginsWithPart};

use super::line::{Line, line_of};
use ranked_list::Row;
use topk_base::{first_line, number_front};

/// The text after a byte at its front, or None where another byte is there.
fn after(byte: u8, text: &[u8]) -> Option<&[u8]>
    ensures { IfSome result (λ rest. text.now ≡ byte ∷ rest.now) }
{
    let (first, rest) = text.split_first()?;
    if *first == byte {
        return Some(rest);
    }
    None
}

/// The row whose line stands at the front of a text, and the text after the line. None says nothing: the line may be a row all
/// the same, as one that ends with CR or with the text.
fn row_front(text: &[u8]) -> Option<(Row, &[u8])>
    ensures { IfSome result (λ front. BeginsWithPart text.now (row_part front.0) front.1.now) }
{
    let (object, rest) = number_front(text)?;
    let rest = after(b',', rest)?;
    let (grade, rest) = number_front(rest)?;
    let rest = after(b'\n', rest)?;
    Some((Row { object, grade }, rest))
}

/// What the first line of a text is, and the text after it, or None where the text is empty.
pub(crate) fn next_line(text: &[u8]) -> Option<(Line<'_>, &[u8])>
    ensures { MatchOption result (text.now ≡ []) (λ next. BeginsWithPart text.now (part_read next.0) next.1.now) }
{
    if let Some((row, rest)) = row_front(text) {
        return Some((Line::Entry(row), rest));
    }
    let (line, rest) = first_line(text)?;
    Some((line_of(line), rest))
}
