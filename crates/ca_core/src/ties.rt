//! The objects that are tied at the caps of lists.

ghost use Rattle.std.specs.Prelude.{◌≡◌, ◌<◌, ◌≤◌, None, Some, replicate, length, slice_set, IfOk, MatchOption};
ghost use Rattle.ca_core.specs.Ties.{ties_of, HasNone, IsSmallest};

use containers::IndexedHeap;
use std::alloc::Global;
use std::cmp::Reverse;
use topk_base::{MAX_OBJECTS, Memory};

/// An object and its place in the order of first sight.
#[derive(Clone, Copy)]
pub struct Tied {
    pub place: u32,
    pub object: u32,
}

/// For each list the objects that were tied at its cap once, by their places.
#[derive(Drop)]
pub struct Ties {
    /// By the numbers of the lists.
    pub heaps: Vec<IndexedHeap<Reverse<u32>>>,
}

impl Ties {
    /// No objects, with room for so many places at each list. No other call takes memory.
    pub fn make(alloc: Global, lists: u8, room: u32) -> Result<Ties, Memory>
        requires { room ≤ MAX_OBJECTS }
        ensures { IfOk result (λ ties. ties.heaps.items ≡ replicate lists (replicate room None)) }
    {
        let mut heaps = Vec::with_capacity(alloc, lists as usize)?;
        for list in 0..lists {
            heaps.push_reserved(IndexedHeap::make(alloc, room)?);
        }
        Ok(Ties { heaps })
    }

    /// The smallest of the objects at a list, None where none is there.
    pub fn smallest(&self, list: u8) -> Option<Tied>
        requires { list < length self.now.heaps.items }
        ensures { MatchOption result (HasNone (ties_of self.now.heaps.items list)) (IsSmallest (ties_of self.now.heaps.items list)) }
    {
        let top = self.heaps[list as usize].greatest()?;
        Some(Tied {
            place: top.key,
            object: top.rank.0,
        })
    }

    /// Adds an object at a list.
    pub fn put(&mut self, list: u8, tied: Tied)
        requires list { list < length self.old.heaps.items }
        requires place { tied.place < length (ties_of self.old.heaps.items list) }
        ensures { self.new.heaps.items
            ≡ slice_set self.old.heaps.items list (slice_set (ties_of self.old.heaps.items list) tied.place (Some (record { 0 = tied.object }))) }
    {
        self.heaps[list as usize].put(tied.place, Reverse(tied.object));
    }

    /// Takes away what is at a place of a list.
    pub fn remove(&mut self, list: u8, place: u32)
        requires list { list < length self.old.heaps.items }
        requires place { place < length (ties_of self.old.heaps.items list) }
        ensures { self.new.heaps.items ≡ slice_set self.old.heaps.items list (slice_set (ties_of self.old.heaps.items list) place None) }
    {
        self.heaps[list as usize].remove(place);
    }
}
