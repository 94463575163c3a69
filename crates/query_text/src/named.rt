//! What a word stands for.

ghost use Rattle.std.specs.Prelude.{◌≡◌, ℕ, ◌≤◌, ◌++◌, List, OnOk, IfOk, IfErr, vec_len, Some, true, find, position};
ghost use Rattle.std.specs.Str.{bytes_eq};
ghost use Rattle.topk_base.specs.Numbers.{is_number, number_of};
ghost use Rattle.query_text.specs.Bytes.{bytes_of};
ghost use Rattle.query_text.specs.Pieces.{with_member, Piece, IsInRange};
ghost use Rattle.query_text.specs.Query.{name_of};
ghost use Rattle.query_text.specs.Shape.{algorithm_word, algorithms};
ghost use Rattle.query_text.specs.Words.{opened_by};
ghost use Rattle.query_text.specs.Named.{IsListMissed};

use super::algorithm::Algorithm;
use super::fault::QueryFault;
use super::operator::Operator;
use std::alloc::Global;
use topk_base::{MAX_LISTS, MAX_NUMBER, number_up_to};

/// Whether a word is this text.
pub fn is_text(word: &[u8], text: &[u8]) -> bool
    ensures { result ≡ bytes_eq word.now text.now }
{
    word == text
}

/// The algorithm of a word, if it is the word of one that has no numbers.
pub fn algorithm_of(word: &[u8]) -> Option<Algorithm>
    ensures { result ≡ find (λ algorithm. bytes_eq word.now (algorithm_word algorithm)) algorithms }
{
    if is_text(word, b"ta") {
        return Some(Algorithm::Ta);
    }
    if is_text(word, b"nra") {
        return Some(Algorithm::Nra);
    }
    if is_text(word, b"ca") {
        return Some(Algorithm::Ca);
    }
    if is_text(word, b"fa") {
        return Some(Algorithm::Fa);
    }
    if is_text(word, b"taz") {
        return Some(Algorithm::Taz);
    }
    None
}

/// The operator of a word with `(` behind it, if it is the word of one.
pub fn opened_by(word: &[u8]) -> Option<Operator>
    ensures { result ≡ opened_by word.now }
{
    if is_text(word, b"min(") {
        return Some(Operator::Min);
    }
    if is_text(word, b"max(") {
        return Some(Operator::Max);
    }
    if is_text(word, b"sum(") {
        return Some(Operator::Sum);
    }
    if is_text(word, b"median(") {
        return Some(Operator::Median);
    }
    if is_text(word, b"wsum(") {
        return Some(Operator::Wsum);
    }
    None
}

/// The number that a word spells, if it is within its range. The word stands at the place `at`.
pub fn number_within(word: &[u8], least: u64, most: u64, at: u32) -> Result<u64, QueryFault>
    ensures ok { IfOk result (λ n. (number_of word.now ≡ Some n) × (least ≤ n) × (n ≤ most)) }
    ensures err { IfErr result (λ fault. (fault ≡ QueryFault.Number at)
        × (is_number word.now ≡ true → IsInRange (Piece.number least most word.now) → ⊥)) }
{
    let Some(number) = number_up_to(word, most) else {
        return Err(QueryFault::Number { at });
    };
    if number < least {
        return Err(QueryFault::Number { at });
    }
    Ok(number)
}

/// The k, cost, room, depth or part of a factor that a word spells, if it is within its range.
pub fn count_within(word: &[u8], at: u32) -> Result<u32, QueryFault>
    ensures ok { IfOk result (λ n. (number_of word.now ≡ Some n) × (1 ≤ n) × (n ≤ MAX_NUMBER)) }
    ensures err { IfErr result (λ fault. (fault ≡ QueryFault.Number at)
        × (is_number word.now ≡ true → IsInRange (Piece.number 1 MAX_NUMBER word.now) → ⊥)) }
{
    Ok(number_within(word, 1, u64::from(MAX_NUMBER), at)? as u32)
}

/// The place of a name.
fn place_of_name(names: &[Vec<u8>], word: &[u8]) -> Option<usize>
    ensures { result ≡ position (λ name. bytes_eq name.items word.now) names.now }
{
    names.iter().position(|name| name.as_slice() == word)
}

/// The number of the list of a name, which stands at the place `at`. A name that isn't there yet comes
/// last, unless there are as many as there may be.
pub fn list_of(
    alloc: Global,
    names: &mut Vec<Vec<u8>>,
    word: &[u8],
    at: u32,
) -> Result<u8, QueryFault>
    requires { vec_len names.old ≤ MAX_LISTS }
    ensures names { OnOk result (bytes_of names.new.items
        ≡ with_member bytes_eq (bytes_of names.old.items) word.now) }
    ensures few { OnOk result (vec_len names.new ≤ MAX_LISTS) }
    ensures number { IfOk result (λ list. (more : List (List ℕ)) →
        name_of (bytes_of names.new.items ++ more) list ≡ word.now) }
    ensures err { IfErr result (IsListMissed (bytes_of names.old.items) word.now at) }
{
    if let Some(place) = place_of_name(names, word) {
        return Ok(place as u8);
    }
    let count = names.len();
    if count >= MAX_LISTS {
        return Err(QueryFault::TooManyLists { at });
    }
    let Ok(name) = Vec::from_slice(alloc, word) else {
        return Err(QueryFault::Memory);
    };
    let Ok(()) = names.push(name) else {
        return Err(QueryFault::Memory);
    };
    Ok(count as u8)
}
