//! The slots.

ghost use Rattle.std.specs.Prelude.{◌≡◌, ◌<◌, ◌≤◌, [], ◌∷◌, ◌++◌, length, slice_get, slice_set, MatchOption, IfOk, Some};
ghost use Rattle.containers.specs.Slots.{HasNoSlot, IsAt, IsLeast, AreDistinctKeys, IsRenewed};

use super::Memory;
use super::heap::IndexedHeap;
use std::alloc::Global;
use std::cmp::Reverse;
use std::marker::Model;
use topk_base::MAX_OBJECTS;

/// A key and its rank.
#[derive(Clone, Copy, Debug, PartialEq, Eq)]
pub struct Entry {
    pub key: u32,
    pub rank: u64,
}

/// Distinct keys below a room, each with a rank, in at most so many slots. Contracts see it as `Slots`.
#[derive(Drop)]
pub struct RankedSlots {
    most: u32,
    entries: Vec<Entry>,
    /// The rank of each slot.
    ranks: IndexedHeap<Reverse<u64>>,
    /// The slot of each key.
    slots: Vec<Option<u32>>,
}

impl Model for RankedSlots {
    ghost use Rattle.std.specs.Prelude.{length, vec_capacity};
    ghost use Rattle.containers.specs.Slots.{Slots, KeepsSlots};

    ghost Value = { Slots };

    ghost view = { λ a. record { most = a.most; room = length a.slots.items; entries = a.entries.items } };

    ghost invariant = { λ a. KeepsSlots a.most (vec_capacity a.entries) a.entries.items a.ranks a.slots.items };
}

impl RankedSlots {
    /// No keys, with `most` slots and room for the keys below `room`.
    pub fn make(alloc: Global, most: u32, room: u32) -> Result<RankedSlots, Memory>
        requires slots { most ≤ MAX_OBJECTS }
        requires room { room ≤ MAX_OBJECTS }
        ensures { IfOk result (λ made. made ≡ record { most = most; room = room; entries = [] }) }
    {
        let Ok(entries) = Vec::with_capacity(alloc, most as usize) else {
            return Err(Memory);
        };
        let Ok(ranks) = IndexedHeap::make(alloc, most) else {
            return Err(Memory);
        };
        let mut slots = Vec::new(alloc);
        let Ok(()) = slots.resize(room as usize, None) else {
            return Err(Memory);
        };
        Ok(RankedSlots {
            most,
            entries,
            ranks,
            slots,
        })
    }

    /// How many slots have a key.
    pub fn len(&self) -> u32
        ensures len { result ≡ length self.now.entries }
        ensures few { result ≤ self.now.most }
        ensures small { result ≤ MAX_OBJECTS }
        ensures distinct { AreDistinctKeys self.now.entries }
    {
        self.entries.len() as u32
    }

    /// The key of a slot, and its rank.
    pub fn get(&self, slot: u32) -> Entry
        requires { slot < length self.now.entries }
        ensures { slice_get self.now.entries slot ≡ Some result }
    {
        self.entries[slot as usize]
    }

    /// The slot of a key, None where it has none.
    ///
    /// *Cost*: constant.
    pub fn slot(&self, key: u32) -> Option<u32>
        requires { key < self.now.room }
        ensures { MatchOption result (HasNoSlot self.now.entries key) (IsAt self.now.entries key) }
    {
        self.slots[key as usize]
    }

    /// A slot with the least rank, None where no slot has a key.
    ///
    /// *Cost*: constant.
    pub fn least(&self) -> Option<u32>
        ensures { MatchOption result (self.now.entries ≡ []) (IsLeast self.now.entries) }
    {
        match self.ranks.greatest() {
            Some(least) => Some(least.key),
            None => None,
        }
    }

    /// Gives a further slot to a key that has none.
    ///
    /// *Cost*: logarithmic in the slots.
    pub fn add(&mut self, key: u32, rank: u64)
        requires within { key < self.old.room }
        requires absent { HasNoSlot self.old.entries key }
        requires free { length self.old.entries < self.old.most }
        ensures added { self.new
            ≡ record self.old { entries = self.old.entries ++ record { key = key; rank = rank } ∷ [] } }
        ensures distinct { AreDistinctKeys self.new.entries }
    {
        let slot = self.entries.len() as u32;
        self.entries.push_reserved(Entry { key, rank });
        self.ranks.put(slot, Reverse(rank));
        self.slots[key as usize] = Some(slot);
    }

    /// Gives the key of a slot another rank.
    ///
    /// *Cost*: logarithmic in the slots.
    pub fn renew(&mut self, slot: u32, rank: u64)
        requires { slot < length self.old.entries }
        ensures renewed { IsRenewed slot rank self.old self.new }
        ensures distinct { AreDistinctKeys self.new.entries }
    {
        let key = self.entries[slot as usize].key;
        self.entries[slot as usize] = Entry { key, rank };
        self.ranks.put(slot, Reverse(rank));
    }

    /// Gives a slot to a key that has none, in place of the key that it had, which is the answer.
    ///
    /// *Cost*: logarithmic in the slots.
    pub fn replace(&mut self, slot: u32, key: u32, rank: u64) -> u32
        requires slot { slot < length self.old.entries }
        requires within { key < self.old.room }
        requires absent { HasNoSlot self.old.entries key }
        ensures leaves { IsAt self.old.entries result slot }
        ensures replaced { self.new
            ≡ record self.old { entries = slice_set self.old.entries slot (record { key = key; rank = rank }) } }
        ensures distinct { AreDistinctKeys self.new.entries }
    {
        let leaves = self.entries[slot as usize].key;
        self.slots[leaves as usize] = None;
        self.slots[key as usize] = Some(slot);
        self.entries[slot as usize] = Entry { key, rank };
        self.ranks.put(slot, Reverse(rank));
        leaves
    }
}
