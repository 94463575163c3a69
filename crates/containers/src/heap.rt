//! The heap.

ghost use Rattle.std.specs.Prelude.{◌≡◌, ◌-◌, ◌<◌, ◌≤◌, ◌++◌, length, replicate, count_by, is_some, slice_set, IfOk, OnErr, OnOk, IfNone, IfSome, Some, None};
ghost use Rattle.containers.specs.Ranks.{rank_at, IsGreatest, HasNone};

use super::Memory;
use super::changes::{add, change, place_of_key, reach, take_out};
use super::tree::Ranked;
use std::alloc::Global;
use std::marker::Model;
use topk_base::MAX_OBJECTS;

/// A finite map from keys to ranks whose greatest rank is at hand. Contracts see it as a list with a place for
/// each key below the room: the key's rank, or None where it has none.
///
/// Memory for the whole room is held from the beginning, and is written only as keys come: as many nodes as keys have a rank, and
/// places up to the greatest key that ever had one.
#[derive(Drop)]
pub struct IndexedHeap<T: Ord + Copy> {
    room: u32,
    /// The keys that have a rank, as a tree.
    nodes: Vec<Ranked<T>>,
    /// The place of each key's node.
    places: Vec<Option<u32>>,
}

impl<T: Ord + Copy> Model for IndexedHeap<T> {
    ghost use Rattle.std.specs.Prelude.{List, Option, vec_capacity};
    ghost use Rattle.containers.specs.Ranks.{ranks_within};
    ghost use Rattle.containers.specs.Tree.{ranks_of, IsFilled};

    ghost Value = { List (Option T) };

    ghost view = { λ a. ranks_within a.room (ranks_of a.nodes.items a.places.items) };

    ghost invariant = { λ a. IsFilled T.cmp a.room a.nodes.items a.places.items (vec_capacity a.nodes) (vec_capacity a.places) };
}

impl<T: Ord + Copy> IndexedHeap<T> {
    /// A heap without ranks, with room for the keys below `room`, at most 200,000.
    ///
    /// *Cost*: memory for the room, of which none is written.
    pub fn make(alloc: Global, room: u32) -> Result<IndexedHeap<T>, Memory>
        requires { room ≤ MAX_OBJECTS }
        ensures { IfOk result (λ heap. heap ≡ replicate room None) }
    {
        let Ok(nodes) = Vec::with_capacity(alloc, room as usize) else {
            return Err(Memory);
        };
        let Ok(places) = Vec::with_capacity(alloc, room as usize) else {
            return Err(Memory);
        };
        Ok(IndexedHeap {
            room,
            nodes,
            places,
        })
    }

    /// How many keys the heap has room for.
    pub fn room(&self) -> u32
        ensures { result ≡ length self.now }
    {
        self.room
    }

    /// How many keys have a rank.
    pub fn len(&self) -> u32
        ensures { result ≡ count_by is_some self.now }
    {
        self.nodes.len() as u32
    }

    /// The rank of a key, None where it has none.
    ///
    /// *Cost*: constant.
    pub fn get(&self, key: u32) -> Option<T>
        ensures { result ≡ rank_at self.now key }
    {
        let place = place_of_key(&self.places, key)?;
        Some(self.nodes[place as usize].rank)
    }

    /// Whether a key has a rank.
    pub fn contains(&self, key: u32) -> bool
        ensures { result ≡ is_some (rank_at self.now key) }
    {
        self.get(key).is_some()
    }

    /// A key with a rank that no other is greater than, None where no key has a rank.
    ///
    /// *Cost*: constant.
    pub fn greatest(&self) -> Option<Ranked<T>>
        ensures none { IfNone result (HasNone self.now) }
        ensures greatest { IfSome result (λ top. IsGreatest T.cmp self.now top.key top.rank) }
    {
        self.nodes.first().copied()
    }

    /// Gives a key a rank, in place of the one that it had. Takes no memory.
    ///
    /// *Cost*: at most the logarithm of the number of keys that have a rank; a key past all earlier ones has the places
    /// up to it cleared, once.
    pub fn put(&mut self, key: u32, rank: T)
        requires { key < length self.old }
        ensures { self.new ≡ slice_set self.old key (Some rank) }
    {
        reach(&mut self.places, key);
        let node = Ranked { key, rank };
        match place_of_key(&self.places, key) {
            Some(place) => change(&mut self.nodes, &mut self.places, place, node),
            None => add(&mut self.nodes, &mut self.places, node),
        }
    }

    /// Takes the rank of a key away. Where it has none nothing changes.
    ///
    /// *Cost*: at most the logarithm of the number of keys that have a rank.
    pub fn remove(&mut self, key: u32)
        requires { key < length self.old }
        ensures { self.new ≡ slice_set self.old key None }
    {
        if let Some(place) = place_of_key(&self.places, key) {
            take_out(&mut self.nodes, &mut self.places, place, key);
        }
    }

    /// Makes the room at least `room`, at most 200,000; the ranks stay. Where memory is refused nothing has changed.
    ///
    /// *Cost*: memory for the room, of which none is written.
    pub fn widen(&mut self, room: u32) -> Result<(), Memory>
        requires { room ≤ MAX_OBJECTS }
        ensures ok { OnOk result (self.new ≡ self.old ++ replicate (room - length self.old) None) }
        ensures err { OnErr result (self.new ≡ self.old) }
    {
        if room <= self.room {
            return Ok(());
        }
        let Ok(()) = self.nodes.reserve(room as usize - self.nodes.len()) else {
            return Err(Memory);
        };
        let Ok(()) = self.places.reserve(room as usize - self.places.len()) else {
            return Err(Memory);
        };
        self.room = room;
        Ok(())
    }
}
