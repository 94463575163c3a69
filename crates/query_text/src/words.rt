//! The words that may stand at a place of a query line.

ghost use Rattle.std.specs.Prelude.{◌≡◌, ◌∷◌, [], ◌<◌, length, true, false};
ghost use Rattle.std.specs.List.{prefix_len};
ghost use Rattle.std.specs.Char.{is_ascii_digit};
ghost use Rattle.topk_base.specs.Names.{is_name_byte};
ghost use Rattle.query_text.specs.Words.{Class, begins, is_whole, class_at, IsLongest, IsLongestName};

use super::algorithm::Algorithm;
use super::named::{algorithm_of, is_text, opened_by};
use super::parser_state::ParserState;
use topk_base::is_name_byte;

/// How many bytes a word and a text have in common at their fronts.
fn common(word: &[u8], text: &[u8]) -> usize
    ensures { IsLongest (Class.words (word.now ∷ [])) text.now result }
{
    let mut count = 0;
    while count < word.len() && count < text.len() {
        if word[count] != text[count] {
            return count;
        }
        count += 1;
    }
    count
}

/// How many digits a text begins with.
fn digits_len(text: &[u8]) -> usize
    ensures { result ≡ prefix_len is_ascii_digit text.now }
{
    text.iter().take_while(|byte| byte.is_ascii_digit()).count()
}

/// How many bytes of a text begin a number.
fn number_len(text: &[u8]) -> usize
    ensures { IsLongest Class.digits text.now result }
{
    let Some((first, _)) = text.split_first() else {
        return 0;
    };
    if *first == b'0' {
        return 1;
    }
    digits_len(text)
}

/// How many bytes of names a text begins with.
fn name_bytes_len(text: &[u8]) -> usize
    ensures { result ≡ prefix_len is_name_byte text.now }
{
    text.iter().take_while(|byte| is_name_byte(**byte)).count()
}

/// How many bytes of a text begin a name.
fn name_len(text: &[u8]) -> usize
    ensures { IsLongestName text.now result }
{
    let Some((first, rest)) = text.split_first() else {
        return 0;
    };
    if !first.is_ascii_alphabetic() {
        return 0;
    }
    1 + name_bytes_len(rest).min(31)
}

/// How many bytes of a text begin a name or an operator with its parenthesis.
fn operand_len(text: &[u8]) -> usize
    ensures { IsLongest Class.operand text.now result }
{
    let count = name_len(text);
    if count < text.len() && opened_by(&text[..count + 1]).is_some() {
        return count + 1;
    }
    count
}

/// How many bytes of a text begin a word that may come at a stage.
pub fn longest(stage: ParserState, inside: bool, text: &[u8]) -> usize
    ensures { IsLongest (class_at stage inside) text.now result }
{
    match stage {
        ParserState::Top => common(b"top ", text),
        ParserState::By => common(b" by ", text),
        ParserState::Operand => operand_len(text),
        ParserState::Behind => behind_len(inside, text),
        ParserState::Times => common(b"*", text),
        ParserState::Over => common(b"/", text),
        ParserState::Algorithm => algorithm_len(text),
        ParserState::Options => common(b" cost ", text).max(common(b" room ", text)),
        ParserState::Between => common(b" ", text),
        ParserState::Priced => common(b" room ", text),
        ParserState::Count
        | ParserState::Weight
        | ParserState::Factor
        | ParserState::Under
        | ParserState::Depth
        | ParserState::Sorted
        | ParserState::Random
        | ParserState::Room => number_len(text),
        ParserState::Done => 0,
    }
}

/// How many bytes of a text begin the word of an algorithm.
fn algorithm_len(text: &[u8]) -> usize
    ensures { IsLongest (class_at ParserState.Algorithm false) text.now result }
{
    let threshold = common(Algorithm::Ta.word(), text);
    let without_random = common(Algorithm::Nra.word(), text);
    let combined = common(Algorithm::Ca.word(), text);
    let fagin = common(Algorithm::Fa.word(), text);
    let ordered = common(Algorithm::Taz.word(), text);
    let rated = common(b"theta ", text).max(common(b"early ", text));
    threshold.max(without_random.max(combined.max(fagin.max(ordered.max(rated)))))
}

/// How many bytes of a text begin what may stand behind an operand.
fn behind_len(inside: bool, text: &[u8]) -> usize
    ensures { IsLongest (class_at ParserState.Behind inside) text.now result }
{
    if inside {
        common(b",", text).max(common(b")", text))
    } else {
        common(b" using ", text)
    }
}

/// Whether what begins a word that may come at a stage is the whole word.
pub fn is_whole(stage: ParserState, inside: bool, word: &[u8]) -> bool
    requires { 0 < length word.now → begins (class_at stage inside) word.now ≡ true }
    ensures { result ≡ is_whole (class_at stage inside) word.now }
{
    match stage {
        ParserState::Top => is_text(word, b"top "),
        ParserState::By => is_text(word, b" by "),
        ParserState::Behind => is_whole_behind(inside, word),
        ParserState::Times => is_text(word, b"*"),
        ParserState::Over => is_text(word, b"/"),
        ParserState::Algorithm => is_whole_algorithm(word),
        ParserState::Options => is_text(word, b" cost ") || is_text(word, b" room "),
        ParserState::Between => is_text(word, b" "),
        ParserState::Priced => is_text(word, b" room "),
        ParserState::Operand
        | ParserState::Count
        | ParserState::Weight
        | ParserState::Factor
        | ParserState::Under
        | ParserState::Depth
        | ParserState::Sorted
        | ParserState::Random
        | ParserState::Room => !word.is_empty(),
        ParserState::Done => false,
    }
}

/// Whether it is the whole word of an algorithm.
fn is_whole_algorithm(word: &[u8]) -> bool
    ensures { result ≡ is_whole (class_at ParserState.Algorithm false) word.now }
{
    algorithm_of(word).is_some() || is_text(word, b"theta ") || is_text(word, b"early ")
}

/// Whether what begins a word that may stand behind an operand is the whole word.
fn is_whole_behind(inside: bool, word: &[u8]) -> bool
    ensures { result ≡ is_whole (class_at ParserState.Behind inside) word.now }
{
    if inside {
        is_text(word, b",") || is_text(word, b")")
    } else {
        is_text(word, b" using ")
    }
}
