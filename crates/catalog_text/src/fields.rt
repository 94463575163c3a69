//! The fields of a catalog's records.

ghost use Rattle.std.specs.Prelude.{◌≡◌, ◌||◌, option_map, MatchOption};
ghost use Rattle.csv.specs.Records.{fields_of};
ghost use Rattle.catalog_text.specs.Catalog.{IsPlace, fields_in};
ghost use Rattle.catalog_text.specs.Listed.{ReadsAccess, ReadsHeader, ReadsSorted, ReadsSource, fields_now};

use super::place::location_of;
use csv::ByteRecord;
use std::str::from_utf8;
use topk_base::is_name;

/// What the record of a source says.
#[derive(Drop)]
pub(crate) struct Parts<'a> {
    pub(crate) name: &'a [u8],
    pub(crate) place: &'a str,
    pub(crate) random: bool,
    pub(crate) sorted: bool,
}

/// The first three fields of a record that has three or four, and the fourth if there is one.
type Fields<'a> = (&'a [u8], &'a [u8], &'a [u8], Option<&'a [u8]>);

/// The fields of a record that has three or four.
fn fields_in(row: &ByteRecord) -> Option<Fields<'_>>
    ensures { option_map fields_now result ≡ fields_in (fields_of row.now) }
{
    let Some(first) = row.get(0) else {
        return None;
    };
    let Some(second) = row.get(1) else {
        return None;
    };
    let Some(third) = row.get(2) else {
        return None;
    };
    if row.get(4).is_some() {
        return None;
    }
    Some((first, second, third, row.get(3)))
}

/// Whether records have a fourth field, by the first record, where that is a header.
pub(crate) fn header_in(row: &ByteRecord) -> Option<bool>
    ensures { ReadsHeader (fields_of row.now) result }
{
    let Some((first, second, third, fourth)) = fields_in(row) else {
        return None;
    };
    if first != b"name".as_slice() || second != b"place".as_slice() {
        return None;
    }
    if third != b"random".as_slice() {
        return None;
    }
    let Some(fourth) = fourth else {
        return Some(false);
    };
    if fourth != b"sorted".as_slice() {
        return None;
    }
    Some(true)
}

/// What a record says, where it is that of a source and has a fourth field as is asked.
pub(crate) fn source_in(row: &ByteRecord, wide: bool) -> Option<Parts<'_>>
    ensures { ReadsSource wide (fields_of row.now) result }
{
    let Some((name, place, random, fourth)) = fields_in(row) else {
        return None;
    };
    if !is_name(name) {
        return None;
    }
    let Some(place) = place_in(place) else {
        return None;
    };
    let Some(random) = access_in(random) else {
        return None;
    };
    let Some(sorted) = sorted_in(wide, fourth) else {
        return None;
    };
    if !has_access(random, sorted) {
        return None;
    }
    Some(Parts {
        name,
        place,
        random,
        sorted,
    })
}

/// Whether a source allows an access at all.
fn has_access(random: bool, sorted: bool) -> bool
    ensures { result ≡ (random || sorted) }
{
    random || sorted
}

/// The place that a field is.
#[tactic(auto, using(crate::proofs::AddressLaws::located))]
fn place_in(field: &[u8]) -> Option<&str>
    ensures { MatchOption result (¬ IsPlace field.now) (λ place. (place.now ≡ field.now) × IsPlace field.now) }
{
    if field.is_empty() || field.len() > 255 {
        return None;
    }
    let Ok(place) = from_utf8(field) else {
        return None;
    };
    match location_of(place) {
        Some(_) => Some(place),
        None => None,
    }
}

/// Whether a source allows an access, by its field.
fn access_in(field: &[u8]) -> Option<bool>
    ensures { ReadsAccess field.now result }
{
    if field == b"yes".as_slice() {
        return Some(true);
    }
    if field == b"no".as_slice() {
        return Some(false);
    }
    None
}

/// Whether a source allows sorted access, by its fourth field where one is asked for. Without one it does.
fn sorted_in(wide: bool, fourth: Option<&[u8]>) -> Option<bool>
    ensures { ReadsSorted wide (option_map (λ field. field.now) fourth.entry) result }
{
    let Some(field) = fourth else {
        if wide {
            return None;
        }
        return Some(true);
    };
    if !wide {
        return None;
    }
    access_in(field)
}
