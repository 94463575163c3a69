//! The board: what was put last of each object, and the first k of it.

ghost use Rattle.std.specs.Prelude.{◌≡◌, ◌≤◌, ◌<◌, [], ◌∷◌, ◌++◌, false, length, List, IfOk, MatchOption, MatchBool, slice_get, nat_eq, Some};
ghost use Rattle.std.specs.List.{list_any};
ghost use Rattle.ranked_list.specs.declared.item.Item.{Item};
ghost use Rattle.containers.specs.Keys.{FitsRoom};
ghost use Rattle.topk_theory.specs.Order.{first_k, kth_low, IsFirstK, IsKthLargest, lows};
ghost use Rattle.machine_base.specs.Held.{item_with, has_object};
ghost use Rattle.ranked_list.specs.Items.{put_item};
ghost use Rattle.machine_base.specs.Kept.{items_in};

use super::Memory;
use super::order::put_in_order;
use super::rank::Rank;
use super::ranking::Ranking;
use containers::{IndexedHeap, RoomMap};
use ranked_list::{Item, Items};
use std::alloc::Global;
use std::marker::Model;
use topk_base::MAX_OBJECTS;

/// The objects seen so far, each with the low and the high that were put last. Objects are ranked by
/// low falling, then high falling, then id rising.
#[derive(Drop)]
pub struct Board {
    places: RoomMap,
    ranking: Ranking,
    /// Room for the answer.
    answer: Vec<Item>,
}

impl Model for Board {
    ghost use Rattle.std.specs.Prelude.{◌≡◌, []};
    ghost use Rattle.machine_base.specs.Held.{Held, risen};
    ghost use Rattle.machine_base.specs.Halves.{joined};
    ghost use Rattle.machine_base.specs.Kept.{items_in, IsBoardKept};

    ghost Value = { Held };

    ghost view = { λ a. record { k = a.ranking.k; room = a.places.room; items = risen (items_in (joined a.ranking.top a.ranking.rest)) } };

    ghost invariant = { λ a. IsBoardKept a.places a.ranking.k a.ranking.top a.ranking.rest × (a.answer.items ≡ []) };
}

impl Board {
    /// A board without objects, for the first `k`, with room for `room` objects, at most 200,000. No other
    /// call but `first` takes memory.
    pub fn make(alloc: Global, k: u32, room: u32) -> Result<Board, Memory>
        requires positive { 1 ≤ k }
        requires room { room ≤ MAX_OBJECTS }
        ensures same_k { IfOk result (λ board. board.k ≡ k) }
        ensures same_room { IfOk result (λ board. board.room ≡ room) }
        ensures empty { IfOk result (λ board. board.items ≡ []) }
    {
        let Ok(answer) = Vec::with_capacity(alloc, k.min(room) as usize) else {
            return Err(Memory);
        };
        let Ok(places) = RoomMap::make(alloc, room) else {
            return Err(Memory);
        };
        let ranking = Ranking::make(alloc, k, room)?;
        Ok(Board {
            places,
            ranking,
            answer,
        })
    }

    /// Adds an object with its bounds, or replaces the bounds that it had. Takes no memory.
    ///
    /// *Cost*: a look-up, and at most four changes of an indexed heap.
    pub fn put(&mut self, object: u32, low: u64, high: u64)
        requires { has_object object self.old.items ≡ false → length self.old.items < self.old.room }
        ensures { self.new
            ≡ record self.old { items = put_item (item_with object low high) self.old.items } }
    {
        let place = place_for(&mut self.places, object);
        self.ranking.put(place, Rank { low, high, object });
    }

    /// The k-th largest low, None while fewer than k objects are there.
    ///
    /// *Cost*: constant.
    pub fn kth(&self) -> Option<u64>
        ensures by_order { result ≡ kth_low self.now.k self.now.items }
        ensures by_count { MatchOption result (length self.now.items < self.now.k)
            (IsKthLargest self.now.k (lows self.now.items)) }
    {
        match self.ranking.last() {
            Some(last) => Some(last.low),
            None => None,
        }
    }

    /// Whether an object is one of the first k. While no more than k were put, each of them is.
    ///
    /// *Cost*: a look-up.
    pub fn is_top(&self, object: u32) -> bool
        ensures by_order { result ≡ has_object object (first_k self.now.k self.now.items) }
        ensures all_of_few { length self.now.items ≤ self.now.k
            → result ≡ has_object object self.now.items }
    {
        match self.places.place(object) {
            Some(place) => self.ranking.top.contains(place),
            None => false,
        }
    }

    /// The first k objects in order, with their bounds; all of them, while they are fewer.
    ///
    /// *Cost*: one pass over the room, and a sort of the first k.
    pub fn first(self) -> Result<Items, Memory>
        ensures by_order { IfOk result (λ items. items ≡ first_k self.k self.items) }
        ensures none_ahead { IfOk result (IsFirstK self.k self.items) }
        ensures only { IfOk result (λ items. (others : List Item) → IsFirstK self.k self.items others
            → others ≡ items) }
    {
        let Board {
            places,
            ranking,
            answer,
        } = self;
        drop(places);
        let Ranking { k: _, top, rest } = ranking;
        drop(rest);
        let mut items = items_of(&top, answer)?;
        drop(top);
        put_in_order(&mut items);
        Ok(Items::from_vec(items))
    }

    /// Lets a board go. Who owns one lets it go by this call, so that it is proved once.
    pub fn let_go(self) {}
}

/// The place of an object, which is added where it isn't there.
fn place_for(places: &mut RoomMap, object: u32) -> u32
    requires fits { FitsRoom places.old }
    requires room { list_any (nat_eq object) places.old.keys ≡ false → length places.old.keys < places.old.room }
    ensures at { slice_get places.new.keys result ≡ Some object }
    ensures fits { FitsRoom places.new }
    ensures same_room { places.new.room ≡ places.old.room }
    ensures added { MatchBool (list_any (nat_eq object) places.old.keys)
        (places.new.keys ≡ places.old.keys) (places.new.keys ≡ places.old.keys ++ object ∷ []) }
{
    match places.place(object) {
        Some(place) => place,
        None => places.add(object),
    }
}

/// Adds the items of the ranks to `items`, which is empty.
fn items_of(top: &IndexedHeap<Rank>, mut items: Vec<Item>) -> Result<Vec<Item>, Memory>
    requires { items.items ≡ [] }
    ensures { IfOk result (λ items. items.items ≡ items_in top.now) }
{
    for place in 0..top.room() {
        if let Some(rank) = top.get(place) {
            let Ok(()) = items.push(rank.item()) else {
                return Err(Memory);
            };
        }
    }
    Ok(items)
}
