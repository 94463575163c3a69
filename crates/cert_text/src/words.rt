//! Lines of words, put behind what waits to be written.

ghost use Rattle.std.specs.Prelude.{◌++◌, ◌∷◌, [], map};
ghost use Rattle.tk_io.specs.Pieces.{Puts};
ghost use Rattle.cert_text.specs.Certificate.{spaced};
ghost use Rattle.cert_text.specs.Writing.{word_text};

use tk_io::Put;

/// A word of a line.
#[derive(Clone, Copy)]
pub(crate) enum Word<'t> {
    /// These bytes.
    Text(&'t [u8]),
    /// A number in decimal.
    Number(u64),
}

/// Puts a space and a word behind the bytes that wait.
pub(crate) fn put_further<P: Put>(out: &mut P, word: Word)
    ensures { Puts (P.at out.old) (P.at out.new) (32 ∷ word_text word.entry) }
{
    out.put(b" ");
    match word {
        Word::Text(text) => out.put(text),
        Word::Number(number) => out.put_number(number),
    }
}

/// Puts the line of a first word and further words behind the bytes that wait.
pub(crate) fn put_line<P: Put>(out: &mut P, first: &[u8], words: &[Word])
    ensures { Puts (P.at out.old) (P.at out.new)
        (spaced (first.now ∷ map word_text words.now) ++ 10 ∷ []) }
{
    out.put(first);
    for word in words {
        put_further(out, *word);
    }
    out.put(b"\n");
}
