//! The walk over the candidates, which decides the stop.

ghost use Rattle.std.specs.Prelude.{◌≡◌, ◌<◌, ◌≤◌, ◌↔◌, true, length, IfSome, IfNone, IsTrue, MatchBool};
ghost use Rattle.monotone_fn.specs.Shape.{list_count};
ghost use Rattle.monotone_fn.specs.Value.{value};
ghost use Rattle.topk_theory.specs.Transcript.{seen_objects};
ghost use Rattle.topk_theory.specs.Bounds.{low, high, threshold};
ghost use Rattle.access_log.specs.Log.{IsConsistent};
ghost use Rattle.nra_core.specs.Late.{AreOthersWithin, IsLeastLow};
ghost use Rattle.nra_core.specs.Quiet.{is_quiet_seen};
ghost use Rattle.nra_core.specs.LatePlaces.{IsLate, KeepsLate, is_first, AreSeen, GivesPlace, AreOpenFrom, UnseenWithin};

use super::late::{LateBounds, least_low};
use access_log::Transcript;
use containers::{IndexedHeap, RankedSlots};
use monotone_fn::Expr;
use topk_base::MAX_OBJECTS;

/// The value at the bottoms of the lists, which is the high of every object that wasn't seen.
fn threshold(expr: &Expr, transcript: &Transcript) -> u64
    requires lists { transcript.now.lists ≡ list_count expr.now }
    requires agrees { IsConsistent transcript.now }
    ensures { result ≡ threshold (value expr.now) transcript.now.lists transcript.now.accesses }
{
    expr.eval(transcript.bottoms())
}

/// Whether no object that wasn't seen has a high above the bound.
fn are_unseen_within(expr: &Expr, transcript: &Transcript, bound: u64) -> bool
    requires lists { transcript.now.lists ≡ list_count expr.now }
    requires agrees { IsConsistent transcript.now }
    ensures { MatchBool result (UnseenWithin (value expr.now) transcript.now bound) (¬ UnseenWithin (value expr.now) transcript.now bound) }
{
    if transcript.seen() >= transcript.count() {
        return true;
    }
    threshold(expr, transcript) <= bound
}

/// The first slot from one on whose low is the bound and whose high is no greater, None where there is none.
fn next_to_leave(
    first: &RankedSlots,
    expr: &Expr,
    transcript: &Transcript,
    bound: u64,
    from: u32,
) -> Option<u32>
    requires lists { transcript.now.lists ≡ list_count expr.now }
    requires places { AreSeen transcript.now.accesses first.now.entries }
    ensures small { IfSome result (λ slot. slot < MAX_OBJECTS) }
    ensures found { IfSome result (GivesPlace (value expr.now) transcript.now.lists transcript.now.accesses bound first.now.entries from) }
    ensures none { IfNone result (AreOpenFrom (value expr.now) transcript.now.lists transcript.now.accesses bound first.now.entries from
        (length first.now.entries)) }
{
    for slot in from..first.len() {
        let entry = first.get(slot);
        if entry.rank == bound && transcript.high(expr, transcript.object_at(entry.key)) <= bound {
            return Some(slot);
        }
    }
    None
}

/// Whether no seen object outside the first stands against the stop. A candidate whose high is no greater than
/// the bound is given up. One whose low is the bound takes the place of one of the first whose low is the bound
/// and whose high is no greater. Any other candidate stands against it, and stays.
fn are_others_within(
    first: &mut RankedSlots,
    candidates: &mut IndexedHeap<u64>,
    expr: &Expr,
    transcript: &Transcript,
    bound: u64,
) -> bool
    requires lists { transcript.now.lists ≡ list_count expr.now }
    requires kept { IsLate (value expr.now) first.old.most transcript.now.lists transcript.now.accesses first.old candidates.old }
    requires enough { first.old.most ≤ length (seen_objects transcript.now.accesses) }
    requires bound { IsLeastLow (low (value expr.now) transcript.now.lists transcript.now.accesses) (is_first transcript.now.accesses first.old.entries) bound }
    ensures within { IsTrue result
        ↔ AreOthersWithin (low (value expr.now) transcript.now.lists transcript.now.accesses)
        (high (value expr.now) transcript.now.lists transcript.now.accesses)
        (seen_objects transcript.now.accesses) (is_first transcript.now.accesses first.old.entries) bound }
    ensures room { first.new.room ≡ first.old.room }
    ensures kept { IsLate (value expr.now) first.old.most transcript.now.lists transcript.now.accesses first.new candidates.new }
{
    let mut from = 0;
    while let Some(candidate) = candidates.greatest() {
        if candidate.rank <= bound {
            return true;
        }
        let object = transcript.object_at(candidate.key);
        if transcript.high(expr, object) > bound {
            if transcript.low(expr, object) < bound {
                return false;
            }
            let Some(slot) = next_to_leave(first, expr, transcript, bound, from) else {
                return false;
            };
            first.replace(slot, candidate.key, bound);
            from = slot + 1;
        }
        candidates.remove(candidate.key);
    }
    true
}

impl LateBounds {
    /// Whether at least k objects were seen, and no object outside the first k is viable, unseen ones included.
    ///
    /// *Cost*: one value for the threshold, then one or two for each candidate that is given up or exchanged (each once
    /// until it becomes one again), and for the witness; k values at a depth that ends at a tie.
    pub fn is_quiet(&mut self, expr: &Expr, transcript: &Transcript) -> bool
        requires lists { transcript.now.lists ≡ list_count expr.now }
        requires agrees { IsConsistent transcript.now }
        requires kept { KeepsLate expr.now transcript.now self.old }
        ensures quiet { result ≡ is_quiet_seen (value expr.now) self.old.k transcript.now.lists transcript.now.count transcript.now.accesses }
        ensures k { self.new.k ≡ self.old.k }
        ensures room { self.new.first.room ≡ self.old.first.room }
        ensures kept { KeepsLate expr.now transcript.now self.new }
    {
        let Some(bound) = least_low(&self.first, self.k) else {
            return false;
        };
        if !are_unseen_within(expr, transcript, bound) {
            return false;
        }
        are_others_within(
            &mut self.first,
            &mut self.candidates,
            expr,
            transcript,
            bound,
        )
    }
}
