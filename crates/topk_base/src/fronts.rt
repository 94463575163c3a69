//! A number at the front of a text.

ghost use Rattle.std.specs.Prelude.{IfSome};
ghost use Rattle.topk_base.specs.Numbers.{BeginsWithNumber, AreDigitsBefore};

/// The greatest number that is read.
const MOST: u64 = 4_294_967_295;

/// A number of 32 bits at the front of a text, with the text after its last digit. None says nothing: where the text has no
/// byte after its digits none is found, nor where they are too many.
pub fn number_front(text: &[u8]) -> Option<(u32, &[u8])>
    ensures { IfSome result (λ front. BeginsWithNumber text.now front.0 front.1.now) }
{
    let mut value: u64 = 0;
    let mut place: usize = 0;
    while place < text.len() {
        let byte = text[place];
        if !byte.is_ascii_digit() {
            return number_before(text, place, value);
        }
        if value > MOST {
            return None;
        }
        value = value * 10 + (byte - b'0') as u64;
        place += 1;
    }
    None
}

/// The number that the digits before a place have, with the text from there.
fn number_before(text: &[u8], place: usize, value: u64) -> Option<(u32, &[u8])>
    requires { AreDigitsBefore text.now place value }
    ensures { IfSome result (λ front. BeginsWithNumber text.now front.0 front.1.now) }
{
    if place == 0 || value > MOST {
        return None;
    }
    if place > 1 && text[0] == b'0' {
        return None;
    }
    Some((value as u32, &text[place..]))
}
