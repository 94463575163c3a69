//! How the end of a response's body is found.

ghost use Rattle.std.specs.Prelude.{◌≡◌, length, map, All};
ghost use Rattle.httparse.specs.Spans.{IsHeaderWithin, header_bytes};
ghost use Rattle.wire.specs.Bodies.{stated_length, framing_of, framing_by_length};

use super::lines::{Name, are_all, are_chunked, count_named, first_named};
use httparse::spans::HeaderSpan;
use topk_base::{are_digits, value_of_digits};

/// How the end of a response's body is found (RFC 9112, section 6.3).
#[derive(Clone, Copy, Debug, PartialEq, Eq)]
pub enum Framing {
    /// It comes in chunks, of which the last one is empty.
    Chunked,
    /// It has so many bytes.
    Length(u64),
    /// It ends where the connection ends.
    ToEnd,
}

/// The most digits of a length that is stated.
const MAX_LENGTH_DIGITS: usize = 18;

/// The framing that header lines say. None where they say what no message may say.
pub(crate) fn framing_of(came: &[u8], lines: &[HeaderSpan]) -> Option<Framing>
    requires { All (IsHeaderWithin (length came.now)) lines.now }
    ensures { result ≡ framing_of (map (header_bytes came.now) lines.now) }
{
    let codings = count_named(came, lines, Name::TransferEncoding);
    let lengths = count_named(came, lines, Name::ContentLength);
    if codings == 0 {
        if lengths == 0 {
            return Some(Framing::ToEnd);
        }
        return framing_by_length(came, lines);
    }
    if codings > 1 || lengths > 0 {
        return None;
    }
    if are_chunked(came, lines) {
        Some(Framing::Chunked)
    } else {
        None
    }
}

/// The framing by the length that all Content-Length lines state.
fn framing_by_length(came: &[u8], lines: &[HeaderSpan]) -> Option<Framing>
    requires { All (IsHeaderWithin (length came.now)) lines.now }
    ensures { result ≡ framing_by_length (map (header_bytes came.now) lines.now) }
{
    let value = first_named(came, lines, Name::ContentLength)?;
    if !are_all(came, lines, Name::ContentLength, value) {
        return None;
    }
    let count = stated_length(value)?;
    Some(Framing::Length(count))
}

/// The number that a value states, where it is 1 to 18 digits.
fn stated_length(value: &[u8]) -> Option<u64>
    ensures { result ≡ stated_length value.now }
{
    if value.is_empty() || value.len() > MAX_LENGTH_DIGITS || !are_digits(value) {
        return None;
    }
    value_of_digits(value)
}
