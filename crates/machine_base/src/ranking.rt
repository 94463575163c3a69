//! The ranks of objects by place, parted into the first k of them and the others.

ghost use Rattle.std.specs.Prelude.{◌≡◌, ◌≤◌, ◌<◌, ℕ, Some, None, length, replicate, slice_set, IfOk, MatchOption};
ghost use Rattle.machine_base.specs.Halves.{IsHalved, IsHalvedBut, IsLast, HasFewer, joined};

use super::Memory;
use super::rank::Rank;
use containers::IndexedHeap;
use std::alloc::Global;
use std::cmp::Reverse;
use topk_base::MAX_OBJECTS;

/// Ranks by place: the first k of them, of which the last is at hand, and the others, of which the first is
/// at hand.
#[derive(Drop)]
pub(crate) struct Ranking {
    pub k: u32,
    pub top: IndexedHeap<Rank>,
    pub rest: IndexedHeap<Reverse<Rank>>,
}

impl Ranking {
    /// No ranks, with room for the places below `room`.
    pub(crate) fn make(alloc: Global, k: u32, room: u32) -> Result<Ranking, Memory>
        requires positive { 1 ≤ k }
        requires room { room ≤ MAX_OBJECTS }
        ensures same_k { IfOk result (λ ranking. ranking.k ≡ k) }
        ensures halved { IfOk result (λ ranking. IsHalved ranking.k ranking.top ranking.rest) }
        ensures empty { IfOk result (λ ranking. joined ranking.top ranking.rest ≡ replicate room None) }
    {
        let Ok(top) = IndexedHeap::make(alloc, room) else {
            return Err(Memory);
        };
        let Ok(rest) = IndexedHeap::make(alloc, room) else {
            return Err(Memory);
        };
        Ok(Ranking { k, top, rest })
    }

    /// Gives a place a rank, in place of the one that it had.
    pub(crate) fn put(&mut self, place: u32, rank: Rank)
        requires halved { IsHalved self.old.k self.old.top self.old.rest }
        requires within { place < length self.old.top }
        ensures same_k { self.new.k ≡ self.old.k }
        ensures halved { IsHalved self.new.k self.new.top self.new.rest }
        ensures joined { joined self.new.top self.new.rest
            ≡ slice_set (joined self.old.top self.old.rest) place (Some rank) }
    {
        if self.top.contains(place) {
            self.top.put(place, rank);
        } else {
            self.rest.put(place, Reverse(rank));
        }
        self.settle();
    }

    /// Parts the ranks anew after the rank of one place has changed.
    fn settle(&mut self)
        requires { (changed : ℕ) × IsHalvedBut changed self.old.k self.old.top self.old.rest }
        ensures same_k { self.new.k ≡ self.old.k }
        ensures halved { IsHalved self.new.k self.new.top self.new.rest }
        ensures joined { joined self.new.top self.new.rest ≡ joined self.old.top self.old.rest }
    {
        let Some(best) = self.rest.greatest() else {
            return;
        };
        if self.top.len() < self.k {
            raise(&mut self.top, &mut self.rest, best.key, best.rank.0);
            return;
        }
        let Some(last) = self.top.greatest() else {
            return;
        };
        if best.rank.0 < last.rank {
            raise(&mut self.top, &mut self.rest, best.key, best.rank.0);
            self.top.remove(last.key);
            self.rest.put(last.key, Reverse(last.rank));
        }
    }

    /// The last of the first k ranks, None where they are fewer.
    pub(crate) fn last(&self) -> Option<Rank>
        requires { 1 ≤ self.now.k }
        ensures { MatchOption result (HasFewer self.now.k self.now.top) (IsLast self.now.k self.now.top) }
    {
        if self.top.len() < self.k {
            return None;
        }
        let Some(last) = self.top.greatest() else {
            return None;
        };
        Some(last.rank)
    }
}

/// Moves the rank of a place from the others to the first.
fn raise(top: &mut IndexedHeap<Rank>, rest: &mut IndexedHeap<Reverse<Rank>>, place: u32, rank: Rank)
    requires top { place < length top.old }
    requires rest { place < length rest.old }
    ensures top { top.new ≡ slice_set top.old place (Some rank) }
    ensures rest { rest.new ≡ slice_set rest.old place None }
{
    rest.remove(place);
    top.put(place, rank);
}
