//! What the table of a source has of each object, and the asks as they stand by it.

ghost use Rattle.std.specs.Prelude.{◌≡◌, ◌<◌, ◌≤◌, ◌+◌, [], ◌∷◌, None, length, slice_get, slice_set};
ghost use Rattle.std.specs.List.{position_or_len};
ghost use Rattle.containers.specs.Values.{IsSet};
ghost use Rattle.source_state.specs.Asks.{first_above, is_due, stops};
ghost use Rattle.source_state.specs.ObjectKeeping.{sorted_at, place_at, standing, standings};

use super::ask::Ask;
use super::entry::Settling;
use containers::{IndexedHeap, ObjectMap};
use ranked_list::Row;
use topk_base::MAX_OBJECTS;

/// The grade that the rows give an object, and the place of its ask.
#[derive(Clone, Copy)]
pub struct Spot {
    pub sorted: Option<u32>,
    pub place: Option<u32>,
}

/// An object that was asked for, and what it settled as.
#[derive(Clone, Copy)]
pub struct Request {
    pub object: u32,
    pub settling: Option<Settling>,
}

/// What the table has of an object.
pub(crate) fn spot_of(spots: &ObjectMap<Spot>, object: u32) -> Spot
    ensures sorted { result.sorted ≡ sorted_at spots.now object }
    ensures place { result.place ≡ place_at spots.now object }
{
    match spots.get(object) {
        Some(spot) => spot,
        None => Spot {
            sorted: None,
            place: None,
        },
    }
}

/// Has the table keep this of an object. Memory is held for it.
pub(crate) fn put_spot(spots: &mut ObjectMap<Spot>, object: u32, spot: Spot)
    requires { 0 < spots.old.spare }
    ensures set { IsSet spots.old spots.new object spot }
    ensures spare { spots.old.spare ≤ spots.new.spare + 1 }
{
    spots.insert(object, spot).unwrap();
}

/// Gives the ask at a place a grade among the tops, or takes it away.
pub(crate) fn set_top(tops: &mut IndexedHeap<u32>, place: u32, grade: Option<u32>)
    requires { place < length tops.old }
    ensures { tops.new ≡ slice_set tops.old place grade }
{
    match grade {
        Some(grade) => tops.put(place, grade),
        None => tops.remove(place),
    }
}

/// A request as it stands.
pub(crate) fn standing(spots: &ObjectMap<Spot>, request: Request) -> Ask
    ensures { result ≡ standing spots.now request }
{
    let spot = spot_of(spots, request.object);
    Ask {
        object: request.object,
        settling: request.settling,
        is_held: spot.sorted.is_some(),
    }
}

/// Whether an ask is due at a place, or none is there.
fn stops_at(spots: &ObjectMap<Spot>, requests: &[Request], place: u32) -> bool
    ensures { result ≡ stops (slice_get (standings spots.now requests.now) place) }
{
    match requests.get(place as usize) {
        Some(request) => standing(spots, *request).is_due(),
        None => true,
    }
}

/// The first place from one on at which an ask is due, or the number of asks. No ask before it is due.
pub(crate) fn next_due(spots: &ObjectMap<Spot>, requests: &[Request], from: u32) -> u32
    requires few { length requests.now ≤ MAX_OBJECTS }
    requires passed { from ≤ position_or_len is_due (standings spots.now requests.now) }
    ensures { result ≡ position_or_len is_due (standings spots.now requests.now) }
{
    let mut place = from;
    while (place as usize) < requests.len() && !stops_at(spots, requests, place) {
        place += 1;
    }
    place
}

/// The good grade of an ask that the rows don't hold, where it is above one.
fn open_above(ask: Ask, bottom: u32) -> Option<Row>
    ensures { result ≡ first_above bottom (ask ∷ []) }
{
    match ask.open_row() {
        Some(row) => if row.grade > bottom { Some(row) } else { None },
        None => None,
    }
}

/// The first good grade, in the order of asking, that the rows don't hold and that is above one.
pub(crate) fn first_open(spots: &ObjectMap<Spot>, requests: &[Request], bottom: u32) -> Option<Row>
    ensures { result ≡ first_above bottom (standings spots.now requests.now) }
{
    let mut place = 0;
    while place < requests.len() {
        let found = open_above(standing(spots, requests[place]), bottom);
        if found.is_some() {
            return found;
        }
        place += 1;
    }
    None
}
