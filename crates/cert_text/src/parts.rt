//! What one line of a certificate says.

ghost use Rattle.std.specs.Prelude.{◌≡◌, ◌≤◌, length, IfSome};
ghost use Rattle.std.specs.Option.{option_map};
ghost use Rattle.topk_base.specs.declared.TheConstants.{MAX_LISTS};
ghost use Rattle.cert_text.specs.Parts.{number_within, number_before, number_in, count_in, version_in, item_in, guarantee_in, figures_after, figures_in, list_named, row_in, access_in};

use super::factor::Guarantee;
use access_log::{Access, Item};
use query_text::Names;
use topk_base::{MAX_OBJECTS, cut_at, number_up_to, rest_after};

/// The greatest number of 32 bits.
const TOP_32: u64 = 0xffff_ffff;

/// The figures of an answer's accesses.
#[derive(Clone, Copy)]
pub(crate) struct Figures {
    pub(crate) depth: u64,
    pub(crate) sorted: u64,
    pub(crate) random: u64,
    pub(crate) cost: u64,
}

/// The number that a text spells, where it is within a range.
#[tactic(auto, unfolding(crate::specs::Parts::number_within))]
fn number_within(text: &[u8], least: u64, most: u64) -> Option<u64>
    ensures value { result ≡ number_within least most text.now }
    ensures within { IfSome result (λ number. number ≤ most) }
{
    let number = number_up_to(text, most)?;
    if least <= number { Some(number) } else { None }
}

/// The number before the first space of a text, and what follows the space.
#[tactic(auto, unfolding(crate::specs::Parts::number_before))]
fn number_before(text: &[u8], most: u64) -> Option<(u64, &[u8])>
    ensures value { option_map (λ field. (field.0, field.1.now)) result
        ≡ number_before most text.now }
    ensures within { IfSome result (λ field. field.0 ≤ most) }
{
    let (number, rest) = cut_at(text, b' ')?;
    Some((number_up_to(number, most)?, rest))
}

/// The number of the query's line, from the first line.
#[tactic(auto, unfolding(crate::specs::Parts::number_in))]
pub(crate) fn number_of(line: &[u8]) -> Option<u64>
    ensures { result ≡ number_in line.now }
{
    number_within(rest_after(b"certificate ", line)?, 1, 0x7fff_ffff_ffff_ffff)
}

/// How many objects each list has, from its line.
#[tactic(auto, unfolding(crate::specs::Parts::count_in))]
pub(crate) fn count_of(line: &[u8]) -> Option<u32>
    ensures { result ≡ count_in line.now }
{
    let count = number_within(rest_after(b"count ", line)?, 1, u64::from(MAX_OBJECTS))?;
    Some(count as u32)
}

/// The version of the list with this name, from a line that gives it.
#[tactic(auto, unfolding(crate::specs::Parts::version_in))]
pub(crate) fn version_of(name: &[u8], line: &[u8]) -> Option<u64>
    ensures { result ≡ version_in name.now line.now }
{
    let named = rest_after(name, rest_after(b"version ", line)?)?;
    number_within(rest_after(b" ", named)?, 1, u64::MAX)
}

/// The object of the answer that a line gives, with its bounds.
#[tactic(auto, unfolding(crate::specs::Parts::item_in))]
pub(crate) fn item_of(line: &[u8]) -> Option<Item>
    ensures { result ≡ item_in line.now }
{
    let (object, rest) = number_before(rest_after(b"answer ", line)?, TOP_32)?;
    let (low, rest) = number_before(rest, u64::MAX)?;
    let high = number_up_to(rest, u64::MAX)?;
    Some(Item {
        object: object as u32,
        low,
        high,
    })
}

/// The guarantee that a line gives.
#[tactic(auto, unfolding(crate::specs::Parts::guarantee_in))]
pub(crate) fn guarantee_of(line: &[u8]) -> Option<Guarantee>
    ensures { result ≡ guarantee_in line.now }
{
    let (p, rest) = number_before(rest_after(b"guarantee ", line)?, u64::MAX)?;
    let q = number_up_to(rest, u64::MAX)?;
    Some(Guarantee { p, q })
}

/// The figures, from what follows their depth and their number of sorted accesses.
fn figures_after(depth: u64, sorted: u64, text: &[u8]) -> Option<Figures>
    ensures { result ≡ figures_after depth sorted text.now }
{
    let (random, rest) = number_before(rest_after(b"random ", text)?, u64::MAX)?;
    let cost = number_up_to(rest_after(b"cost ", rest)?, u64::MAX)?;
    Some(Figures {
        depth,
        sorted,
        random,
        cost,
    })
}

/// The figures that a line gives.
#[tactic(auto, unfolding(crate::specs::Parts::figures_in))]
pub(crate) fn figures_of(line: &[u8]) -> Option<Figures>
    ensures { result ≡ figures_in line.now }
{
    let (depth, rest) = number_before(rest_after(b"stop depth ", line)?, u64::MAX)?;
    let (sorted, rest) = number_before(rest_after(b"sorted ", rest)?, u64::MAX)?;
    figures_after(depth, sorted, rest)
}

/// The number of the list with a name.
fn list_named(names: &Names, name: &[u8]) -> Option<u8>
    requires { length names.now ≤ MAX_LISTS }
    ensures { result ≡ list_named names.now name.now }
{
    let list = names.iter().position(|other| other.as_slice() == name)?;
    Some(list as u8)
}

/// A row as an access gave it: the number of the list, the object and the grade.
#[tactic(auto, unfolding(crate::specs::Parts::row_in))]
fn row_of(names: &Names, text: &[u8]) -> Option<(u8, u32, u32)>
    requires { length names.now ≤ MAX_LISTS }
    ensures { result ≡ row_in names.now text.now }
{
    let (name, rest) = cut_at(text, b' ')?;
    let list = list_named(names, name)?;
    let (object, rest) = number_before(rest, TOP_32)?;
    let grade = number_up_to(rest, TOP_32)?;
    Some((list, object as u32, grade as u32))
}

/// The access that a line gives.
#[tactic(auto, unfolding(crate::specs::Parts::access_in))]
pub(crate) fn access_of(names: &Names, line: &[u8]) -> Option<Access>
    requires { length names.now ≤ MAX_LISTS }
    ensures { result ≡ access_in names.now line.now }
{
    if let Some(text) = rest_after(b"s ", line) {
        let (list, object, grade) = row_of(names, text)?;
        return Some(Access::Sorted {
            list,
            object,
            grade,
        });
    }
    let (list, object, grade) = row_of(names, rest_after(b"r ", line)?)?;
    Some(Access::Random {
        list,
        object,
        grade,
    })
}
