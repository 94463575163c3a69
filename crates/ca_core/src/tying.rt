//! The ties: objects whose highs are the cap of a list, so that they fall together, and the smallest of them leads.

ghost use Rattle.std.specs.Prelude.{◌≡◌, ◌≢◌, ◌<◌, ℕ, List, true, None, length, slice_set, IfSome};
ghost use Rattle.monotone_fn.specs.Shape.{list_count};
ghost use Rattle.monotone_fn.specs.Value.{value};
ghost use Rattle.topk_theory.specs.Bounds.{high};
ghost use Rattle.access_log.specs.Log.{IsConsistent};
ghost use Rattle.ca_core.specs.Ties.{ties_of, HasTied};
ghost use Rattle.ca_core.specs.Open.{AreOpen, KeepsOpen, cap, IsCapped};
ghost use Rattle.ca_core.specs.Leading.{LeadsTies, IsPresent, IsFirstTied, IsFallen, IsLowered};

use super::kept_high::KeptHigh;
use super::leading::first_of;
use super::open_highs::OpenHighs;
use super::ties::Tied;
use access_log::Transcript;
use machine_base::next_unknown;
use monotone_fn::Expr;
use topk_base::{MAX_LISTS, TOP_GRADE};

/// The cap of a list: the value at its bottom and the greatest grades elsewhere.
fn cap(expr: &Expr, transcript: &Transcript, list: u8) -> u64
    requires lists { transcript.now.lists ≡ list_count expr.now }
    requires list { list < transcript.now.lists }
    ensures { result ≡ cap (value expr.now) transcript.now.lists transcript.now.accesses list }
{
    let mut grades = [TOP_GRADE; MAX_LISTS];
    let lists = transcript.lists() as usize;
    grades[list as usize] = transcript.bottoms()[list as usize];
    expr.eval(&grades[..lists])
}

/// Whether an object with this high is tied at a list whose bottom is the high.
fn is_capped(expr: &Expr, transcript: &Transcript, rank: KeptHigh, list: u8) -> bool
    requires lists { transcript.now.lists ≡ list_count expr.now }
    requires list { list < transcript.now.lists }
    ensures { result ≡ true → IsCapped (value expr.now) transcript.now.lists transcript.now.accesses rank list }
{
    if transcript.known(rank.object)[list as usize].is_some() {
        return false;
    }
    if u64::from(transcript.bottoms()[list as usize]) != rank.high {
        return false;
    }
    cap(expr, transcript, list) == rank.high
}

/// A list at which an object with this high is tied, if there is one.
fn capped_at(expr: &Expr, transcript: &Transcript, rank: KeptHigh) -> Option<u8>
    requires { transcript.now.lists ≡ list_count expr.now }
    ensures { IfSome result (IsCapped (value expr.now) transcript.now.lists transcript.now.accesses rank) }
{
    for list in 0..transcript.lists() {
        if is_capped(expr, transcript, rank, list) {
            return Some(list);
        }
    }
    None
}

impl OpenHighs {
    /// Gives the object at a place of a list's ties a kept high in place of the tie, where it has an unknown grade.
    fn release(&mut self, transcript: &Transcript, list: u8, place: u32, rank: KeptHigh)
        requires list { list < transcript.now.lists }
        requires there { HasTied (ties_of self.old.ties.heaps.items list) place rank.object }
        requires place { place < length self.old.highs }
        ensures kept { (V : List ℕ → ℕ) → rank.high ≡ high V transcript.now.lists transcript.now.accesses rank.object
            → AreOpen V transcript.now.lists transcript.now.accesses self.old.highs self.old.ties.heaps.items
            → AreOpen V transcript.now.lists transcript.now.accesses self.new.highs self.new.ties.heaps.items }
        ensures room { length self.new.highs ≡ length self.old.highs }
        ensures ties { self.new.ties.heaps.items
            ≡ slice_set self.old.ties.heaps.items list (slice_set (ties_of self.old.ties.heaps.items list) place None) }
    {
        self.ties.remove(list, place);
        if next_unknown(transcript, rank.object).is_some() {
            self.highs.put(place, rank);
        }
    }

    /// The first of the objects that are tied at a list. Those that are so no more leave it.
    fn first_tied(&mut self, expr: &Expr, transcript: &Transcript, list: u8) -> Option<KeptHigh>
        requires lists { transcript.now.lists ≡ list_count expr.now }
        requires agrees { IsConsistent transcript.now }
        requires list { list < transcript.now.lists }
        requires kept { KeepsOpen expr.now transcript.now self.old }
        ensures kept { KeepsOpen expr.now transcript.now self.new }
        ensures room { length self.new.highs ≡ length self.old.highs }
        ensures present { IfSome result (IsPresent (value expr.now) transcript.now.lists transcript.now.accesses) }
        ensures leads { LeadsTies (value expr.now) transcript.now.lists transcript.now.accesses result self.new.ties.heaps.items list }
        ensures others { (other : ℕ) → other ≢ list → ties_of self.new.ties.heaps.items other ≡ ties_of self.old.ties.heaps.items other }
    {
        while let Some(tied) = self.ties.smallest(list) {
            let high = transcript.high(expr, tied.object);
            let rank = KeptHigh {
                high,
                object: tied.object,
            };
            if is_capped(expr, transcript, rank, list) {
                return Some(rank);
            }
            self.release(transcript, list, tied.place, rank);
        }
        None
    }

    /// The first of all objects that are tied.
    pub(crate) fn first_of_ties(&mut self, expr: &Expr, transcript: &Transcript) -> Option<KeptHigh>
        requires lists { transcript.now.lists ≡ list_count expr.now }
        requires kept { KeepsOpen expr.now transcript.now self.old }
        ensures kept { KeepsOpen expr.now transcript.now self.new }
        ensures room { length self.new.highs ≡ length self.old.highs }
        ensures first { IsFirstTied (value expr.now) transcript.now.lists transcript.now.accesses transcript.now.lists self.new.ties.heaps.items result }
    {
        let mut first = None;
        for list in 0..transcript.lists() {
            first = first_of(first, self.first_tied(expr, transcript, list));
        }
        first
    }

    /// Lowers the kept high of the object at a place to its present one, or ties the object. Answers the first of all
    /// that are tied then.
    pub(crate) fn lower(
        &mut self,
        expr: &Expr,
        transcript: &Transcript,
        place: u32,
        rank: KeptHigh,
        first: Option<KeptHigh>,
    ) -> Option<KeptHigh>
        requires lists { transcript.now.lists ≡ list_count expr.now }
        requires kept { KeepsOpen expr.now transcript.now self.old }
        requires fallen { IsFallen (value expr.now) transcript.now.lists transcript.now.accesses self.old.highs place rank }
        requires first { IsFirstTied (value expr.now) transcript.now.lists transcript.now.accesses transcript.now.lists self.old.ties.heaps.items first }
        ensures kept { KeepsOpen expr.now transcript.now self.new }
        ensures lowered { IsLowered self.old.highs place rank self.new.highs }
        ensures first { IsFirstTied (value expr.now) transcript.now.lists transcript.now.accesses transcript.now.lists self.new.ties.heaps.items result }
    {
        let Some(list) = capped_at(expr, transcript, rank) else {
            self.highs.put(place, rank);
            return first;
        };
        self.highs.remove(place);
        self.ties.put(
            list,
            Tied {
                place,
                object: rank.object,
            },
        );
        first_of(first, Some(rank))
    }
}
