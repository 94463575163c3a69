//! The pairs of a query part.

ghost use Rattle.std.specs.Prelude.{◌≡◌, ◌≤◌, option_map, IfOk, IfSome};
ghost use Rattle.std.specs.Cow.{cow_str_bytes};
ghost use Rattle.wire.specs.Queries.{value_in, number_in, number_between};

use super::Memory;
use form_urlencoded::{decode, raw_pairs};
use std::alloc::Global;
use std::borrow::CowStr;
use topk_base::number_up_to;

/// The value of the first pair of this name, or None where no pair has it. A name without `=` has the
/// empty value.
pub fn value_in<'q>(
    alloc: Global,
    query: &'q [u8],
    name: &str,
) -> Result<Option<CowStr<'q>>, Memory>
    ensures { IfOk result (λ value. option_map cow_str_bytes value ≡ value_in name.now query.now) }
{
    for pair in raw_pairs(query) {
        let found = decode(alloc, pair.0)?;
        let is_wanted = found.as_str() == name;
        drop(found);
        if is_wanted {
            return Ok(Some(decode(alloc, pair.1)?));
        }
    }
    Ok(None)
}

/// The number from `least` to `most` that the first pair of this name says, or None where no pair has
/// the name or its value is no such number. A number is `0`, or a digit 1 to 9 followed by digits.
pub fn number_in(
    alloc: Global,
    query: &[u8],
    name: &str,
    least: u32,
    most: u32,
) -> Result<Option<u32>, Memory>
    ensures number { IfOk result (λ number. number ≡ number_in name.now least most query.now) }
    ensures within { IfOk result (λ number. IfSome number (λ n. (least ≤ n) × (n ≤ most))) }
{
    match value_in(alloc, query, name)? {
        Some(value) => Ok(number_between(value.as_str().as_bytes(), least, most)),
        None => Ok(None),
    }
}

/// The number from `least` to `most` that a text spells.
fn number_between(text: &[u8], least: u32, most: u32) -> Option<u32>
    ensures number { result ≡ number_between least most text.now }
    ensures within { IfSome result (λ n. (least ≤ n) × (n ≤ most)) }
{
    let number = number_up_to(text, most as u64)?;
    let number = u32::try_from(number).ok()?;
    if number < least {
        return None;
    }
    Some(number)
}
