//! The object and the grade of an access's line, put at once.

ghost use Rattle.std.specs.Prelude.{◌≡◌, ◌+◌, ◌≤◌, ◌++◌, ◌∷◌, [], drop, length};
ghost use Rattle.std.specs.Fmt.{decimal};
ghost use Rattle.tk_io.specs.Pieces.{Puts};

use itoa::write_digits;
use tk_io::Put;

/// How many bytes a space and a number of 32 bits have at most.
const MAX_NUMBER_TEXT: usize = 11;

/// How many bytes an object and a grade have at most, each behind a space.
const MAX_ROW_TEXT: usize = 2 * MAX_NUMBER_TEXT;

/// Puts an object and a grade, each behind a space, and the line's end behind the bytes that wait.
pub(crate) fn put_row<P: Put>(out: &mut P, object: u32, grade: u32)
    ensures { Puts (P.at out.old) (P.at out.new)
        (32 ∷ decimal object ++ (32 ∷ decimal grade ++ 10 ∷ [])) }
{
    let mut text = [b'\n'; MAX_ROW_TEXT + 1];
    let middle = write_number(&mut text, MAX_ROW_TEXT, grade);
    let start = write_number(&mut text, middle, object);
    out.put(&text[start..]);
}

/// Writes a space and a number into a text so that they end at a place, and returns where they begin.
fn write_number(text: &mut [u8], end: usize, number: u32) -> usize
    requires { (MAX_NUMBER_TEXT ≤ end) × (end ≤ length text.old) }
    ensures begins { (end ≤ result + MAX_NUMBER_TEXT) × (result ≤ end) }
    ensures long { length text.new ≡ length text.old }
    ensures written { drop result text.new ≡ 32 ∷ decimal number ++ drop end text.old }
{
    let at = write_digits(u64::from(number), text, end) - 1;
    text[at] = b' ';
    at
}
