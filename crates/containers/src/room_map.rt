//! The map from keys to their places.

ghost use Rattle.std.specs.Prelude.{◌≡◌, ◌<◌, ◌≤◌, ◌==◌, [], ◌∷◌, ◌++◌, ◌+◌, ℕ, None, length, nat_eq, position, slice_get, Contains, IfOk, OnOk, OnErr};
ghost use Rattle.containers.specs.Values.{value_of, IsSet};
ghost use Rattle.containers.specs.Keys.{FitsRoom};

use super::Memory;
use super::map::ObjectMap;
use std::alloc::Global;
use std::marker::Model;
use topk_base::MAX_OBJECTS;

/// Distinct keys in the order in which they were added, with room for so many. Only `make` and
/// `widen` take memory. Contracts see it as `Keys`.
#[derive(Drop)]
pub struct RoomMap {
    room: u32,
    keys: Vec<u32>,
    places: ObjectMap<u32>,
}

impl Model for RoomMap {
    ghost use Rattle.std.specs.Prelude.{vec_capacity};
    ghost use Rattle.containers.specs.Keys.{Keys, AreKeysKept};

    ghost Value = { Keys };

    ghost view = { λ a. record { room = a.room; keys = a.keys.items } };

    ghost invariant = { λ a. AreKeysKept a.room a.keys.items (vec_capacity a.keys) a.places };
}

/// No places, with memory for so many, and a table for twice as many numbers: small where few keys are.
fn places_for(alloc: Global, room: u32) -> Result<ObjectMap<u32>, Memory>
    ensures none { IfOk result (λ places. (key : ℕ) → value_of places key ≡ None) }
    ensures spare { IfOk result (λ places. room ≤ places.spare) }
{
    let mut places = ObjectMap::make(alloc);
    places.reserve(room)?;
    places.widen(room.saturating_mul(2))?;
    Ok(places)
}

/// Gives a key its place. Memory is held for it.
fn put_place(places: &mut ObjectMap<u32>, key: u32, place: u32)
    requires { 0 < places.old.spare }
    ensures set { IsSet places.old places.new key place }
    ensures spare { places.old.spare ≤ places.new.spare + 1 }
{
    places.insert(key, place).unwrap();
}

impl RoomMap {
    /// A map without keys, with room for `room` of them.
    ///
    /// *Cost*: twice the room is cleared, 8 bytes each.
    pub fn make(alloc: Global, room: u32) -> Result<RoomMap, Memory>
        requires { room ≤ MAX_OBJECTS }
        ensures { IfOk result (λ map. map ≡ record { room = room; keys = [] }) }
    {
        let keys = Vec::with_capacity(alloc, room as usize)?;
        let places = places_for(alloc, room)?;
        Ok(RoomMap { room, keys, places })
    }

    /// Adds a key that isn't there as the last one, and gives its place, from 0.
    ///
    /// *Cost*: a look-up of `ObjectMap`.
    pub fn add(&mut self, key: u32) -> u32
        requires absent { ¬ Contains self.old.keys key }
        requires room { length self.old.keys < self.old.room }
        ensures place { result ≡ length self.old.keys }
        ensures added { self.new ≡ record self.old { keys = self.old.keys ++ key ∷ [] } }
    {
        let place = self.keys.len() as u32;
        self.keys.push_reserved(key);
        put_place(&mut self.places, key, place);
        place
    }

    /// The place of a key, or None where it isn't there.
    ///
    /// *Cost*: a look-up of `ObjectMap`.
    pub fn place(&self, key: u32) -> Option<u32>
        ensures { result ≡ position (nat_eq key) self.now.keys }
    {
        self.places.get(key)
    }

    /// The key at a place.
    ///
    /// *Cost*: constant.
    pub fn key(&self, place: u32) -> u32
        requires { place < length self.now.keys }
        ensures { slice_get self.now.keys place ≡ Some result }
    {
        self.keys[place as usize]
    }

    /// How many keys there are.
    pub fn len(&self) -> u32
        ensures len { result ≡ length self.now.keys }
        ensures fits { FitsRoom self.now }
    {
        self.keys.len() as u32
    }

    /// Whether there are none.
    pub fn is_empty(&self) -> bool
        ensures { result ≡ (length self.now.keys == 0) }
    {
        self.keys.is_empty()
    }

    /// How many keys there is room for.
    pub fn room(&self) -> u32
        ensures room { result ≡ self.now.room }
        ensures fits { FitsRoom self.now }
    {
        self.room
    }

    /// Makes the room at least `room`, and no less than it was. Where memory is refused nothing has
    /// changed.
    ///
    /// *Cost*: twice the room is cleared, 8 bytes each.
    pub fn widen(&mut self, room: u32) -> Result<(), Memory>
        requires { room ≤ MAX_OBJECTS }
        ensures at_least { OnOk result (room ≤ self.new.room) }
        ensures no_less { OnOk result (self.old.room ≤ self.new.room) }
        ensures keys { OnOk result (self.new.keys ≡ self.old.keys) }
        ensures err { OnErr result (self.new ≡ self.old) }
    {
        if room > self.room {
            let more = room - self.keys.len() as u32;
            self.keys.reserve(more as usize)?;
            self.places.reserve(more)?;
            self.places.widen(room.saturating_mul(2))?;
            self.room = room;
        }
        Ok(())
    }
}
