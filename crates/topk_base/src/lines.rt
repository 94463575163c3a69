//! The lines of a text.

ghost use Rattle.std.specs.Prelude.{◌≡◌, ◌∷◌, [], ◌<◌, length, MatchOption};
ghost use Rattle.std.specs.Str.Lines.{strip_carriage_return};
ghost use Rattle.topk_base.specs.Lines.{lines};

use super::cuts::cut_at;

/// A line without the one CR at its end, if it has one.
fn without_return(line: &[u8]) -> &[u8]
    ensures { result.now ≡ strip_carriage_return line.now }
{
    if line.last() == Some(&b'\r') {
        return &line[..line.len() - 1];
    }
    line
}

/// The first line of a text and the text after it, or None where the text is empty.
///
/// A line ends with LF, and one CR directly before the LF is dropped. A last line without LF is
/// whole and keeps its CR.
pub fn first_line(text: &[u8]) -> Option<(&[u8], &[u8])>
    ensures { MatchOption result (text.now ≡ []) (λ cut.
        (lines text.now ≡ cut.0.now ∷ lines cut.1.now) × (length cut.1.now < length text.now)) }
{
    if let Some((line, rest)) = cut_at(text, b'\n') {
        return Some((without_return(line), rest));
    }
    if text.is_empty() {
        return None;
    }
    Some((text, &text[text.len()..]))
}
