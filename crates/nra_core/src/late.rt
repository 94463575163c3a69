//! What is kept of the seen objects.

ghost use Rattle.std.specs.Prelude.{◌≡◌, ◌<◌, ◌≤◌, ◌⊎◌, ℕ, [], length, IfOk, MatchOption};
ghost use Rattle.monotone_fn.specs.Shape.{list_count};
ghost use Rattle.monotone_fn.specs.Value.{value};
ghost use Rattle.topk_theory.specs.Order.{kth_low};
ghost use Rattle.topk_theory.specs.NoRandom.{seen_items};
ghost use Rattle.monotone_fn.specs.Tree.{Tree};
ghost use Rattle.access_log.specs.Log.{Log, IsConsistent};
ghost use Rattle.nra_core.specs.LatePlaces.{IsLateAfter, KeepsLate, WasLate, HasLeast};

use super::Memory;
use access_log::Transcript;
use containers::{IndexedHeap, RankedSlots};
use monotone_fn::Expr;
use std::alloc::Global;
use topk_base::MAX_OBJECTS;

/// The seen objects of a machine, by their places in the order of first sight: the k with the greatest lows, ties as
/// they come, and the candidates. Whoever is neither is given up for good.
#[derive(Drop)]
pub struct LateBounds {
    pub k: u32,
    /// How many objects are seen.
    pub seen: u32,
    /// The first by low, each with its present low.
    pub first: RankedSlots,
    /// The candidates, each with a kept high that is at least its present one.
    pub candidates: IndexedHeap<u64>,
}

impl LateBounds {
    /// For the first `k` of the objects, of which `room` may be seen. No other call takes memory.
    ///
    /// *Cost*: linear in k and the room; the only call that takes memory.
    pub fn make(alloc: Global, k: u32, room: u32) -> Result<LateBounds, Memory>
        requires asked { 1 ≤ k }
        requires few { k ≤ MAX_OBJECTS }
        requires room { room ≤ MAX_OBJECTS }
        ensures k { IfOk result (λ late. late.k ≡ k) }
        ensures room { IfOk result (λ late. late.first.room ≡ room) }
        ensures kept { IfOk result (λ late. (e : Tree) (m : ℕ) → IsLateAfter e m [] late) }
    {
        let Ok(first) = RankedSlots::make(alloc, k, room) else {
            return Err(Memory);
        };
        let Ok(candidates) = IndexedHeap::make(alloc, room) else {
            return Err(Memory);
        };
        Ok(LateBounds {
            k,
            seen: 0,
            first,
            candidates,
        })
    }

    /// The k-th largest low of the seen objects, None while fewer than k are seen. Costs no evaluation.
    ///
    /// *Cost*: constant, no value.
    pub fn bound(&self) -> Option<u64>
        ensures { (e : Tree) (log : Log) → KeepsLate e log self.now
            → result ≡ kth_low self.now.k (seen_items (value e) log.lists log.accesses) }
    {
        least_low(&self.first, self.k)
    }

    /// Takes note of the access that the transcript was told last, which named this object: its low is renewed, and
    /// where it is above the least of the first it takes that one's place, which joins the candidates. At most two
    /// bounds are computed, and four changes made, each at most logarithmic.
    ///
    /// *Cost*: at most two values, and three changes of a heap.
    pub fn note(&mut self, expr: &Expr, transcript: &Transcript, object: u32)
        requires lists { transcript.now.lists ≡ list_count expr.now }
        requires agrees { IsConsistent transcript.now }
        requires before { WasLate expr.now transcript.now object self.old }
        ensures k { self.new.k ≡ self.old.k }
        ensures room { self.new.first.room ≡ self.old.first.room }
        ensures kept { KeepsLate expr.now transcript.now self.new }
    {
        let Some(place) = transcript.sight_of(object) else {
            return;
        };
        let is_new = place >= self.seen;
        self.seen = transcript.seen();
        let low = transcript.low(expr, object);
        if let Some(slot) = self.first.slot(place) {
            self.first.renew(slot, low);
            return;
        }
        if self.first.len() < self.k {
            self.first.add(place, low);
            return;
        }
        let Some(least) = self.first.least() else {
            return;
        };
        if low <= self.first.get(least).rank {
            if is_new {
                self.candidates.put(place, transcript.high(expr, object));
            }
            return;
        }
        let leaves = self.first.replace(least, place, low);
        self.candidates.remove(place);
        let left = transcript.object_at(leaves);
        self.candidates.put(leaves, transcript.high(expr, left));
    }
}

/// The least low of the first, None while they are fewer than k.
pub(crate) fn least_low(first: &RankedSlots, k: u32) -> Option<u64>
    ensures { MatchOption result ((length first.now.entries < k) ⊎ (k ≡ 0)) (λ bound. HasLeast k first.now.entries bound) }
{
    if first.len() < k {
        return None;
    }
    let least = first.least()?;
    Some(first.get(least).rank)
}
