//! Where a text is cut.

ghost use Rattle.std.specs.Prelude.{◌≡◌, ◌==◌};
ghost use Rattle.std.specs.List.{position};
ghost use Rattle.std.specs.Option.{option_map};
ghost use Rattle.topk_base.specs.Cuts.{cut_at, rest_after};

/// The place of the first of a byte.
fn place_of_byte(text: &[u8], byte: u8) -> Option<usize>
    ensures { result ≡ position (λ b. b == byte) text.now }
{
    text.iter().position(|b| *b == byte)
}

/// What stands before the first of a byte and what stands after it, or None where the text has no
/// such byte.
pub fn cut_at(text: &[u8], byte: u8) -> Option<(&[u8], &[u8])>
    ensures { option_map (λ cut. (cut.0.now, cut.1.now)) result ≡ cut_at byte text.now }
{
    let place = place_of_byte(text, byte)?;
    Some((&text[..place], &text[place + 1..]))
}

/// What follows a word at the front of a text, or None where the text doesn't begin with it.
pub fn rest_after<'t>(word: &[u8], text: &'t [u8]) -> Option<&'t [u8]>
    ensures { option_map (λ rest. rest.now) result ≡ rest_after word.now text.now }
{
    text.strip_prefix(word)
}
