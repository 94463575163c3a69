//! What sources are taken from.

ghost use Rattle.std.specs.Prelude.{◌≡◌, ◌≤◌, true, ℕ, Bool, List, Option, Some, vec_len, IfOk, IfErr, IfSome, OnOk, OnErr};
ghost use Rattle.ranked_list.specs.declared.row.Row.{Row as RowOf};
ghost use Rattle.source_api.specs.declared.ledger.PlaceCounts.{PlaceCounts as PlaceCountsOf};
ghost use Rattle.source_api.specs.Calls.{IsUncalled};
ghost use Rattle.source_api.specs.Counting.{no_counts};
ghost use Rattle.source_api.specs.Places.{SameAtEach, SameElsewhere, CountsTexts, CountsTakes, HasTextCause, HasTakeCause, counts_taken, put_back_at, text_limit};

use super::{Source, Trouble};
use std::alloc::Global;

/// Texts and sources by place.
///
/// `texts` and `lists` are the text of a place, and the list that its source tells, where the shelf
/// tells them. No call changes them. `at` is what the shelf has counted at a place: calls for its
/// text that failed, calls that should have taken its source and failed, how many sources were taken
/// of it and how many were put back, and what these had counted. A count stands still at the last
/// value of its type. A call counts at its place alone, and counts how it ended and nothing else. `knows`
/// are the places at which sources that are put back count: those of which one was taken. `versions` is
/// the version that the source of a place states, where the shelf tells it. No call changes it.
pub trait Shelf {
    type Item: Source;

    ghost texts: { Self → List ℕ → Option (List ℕ) };

    ghost lists: { Self → List ℕ → Option (List RowOf) };

    ghost versions: { Self → List ℕ → Option ℕ };

    ghost at: { Self → List ℕ → PlaceCountsOf };

    ghost knows: { Self → List ℕ → Bool };

    /// The text of a place. A text of more than 16,777,216 bytes counts as a call that failed, and no
    /// call is answered by garbled data.
    fn text(&mut self, alloc: Global, place: &str) -> Result<Vec<u8>, Trouble>
        ensures texts { SameAtEach (texts self.old) (texts self.new) }
        ensures lists { SameAtEach (lists self.old) (lists self.new) }
        ensures versions { SameAtEach (versions self.old) (versions self.new) }
        ensures known { (other : List ℕ) → knows self.old other ≡ true → knows self.new other ≡ true }
        ensures elsewhere { SameElsewhere place.now (at self.old) (at self.new) }
        ensures counts { CountsTexts (at self.old place.now) (at self.new place.now) }
        ensures quiet { OnOk result (at self.new place.now ≡ at self.old place.now) }
        ensures cause { IfErr result (HasTextCause (at self.old place.now) (at self.new place.now)) }
        ensures within { IfOk result (λ text. vec_len text ≤ text_limit) }
        ensures text { IfOk result (λ text. IfSome (texts self.old place.now) (λ told. text.items ≡ told)) };

    /// A source of the place's list, which has counted nothing and answered no size yet. One place can be
    /// taken more than once. A call that is answered by garbled data counts as one that failed.
    fn take(&mut self, alloc: Global, place: &str) -> Result<Self::Item, Trouble>
        ensures texts { SameAtEach (texts self.old) (texts self.new) }
        ensures lists { SameAtEach (lists self.old) (lists self.new) }
        ensures versions { SameAtEach (versions self.old) (versions self.new) }
        ensures known { (other : List ℕ) → knows self.old other ≡ true → knows self.new other ≡ true }
        ensures elsewhere { SameElsewhere place.now (at self.old) (at self.new) }
        ensures counts { CountsTakes (at self.old place.now) (at self.new place.now) }
        ensures taken { OnOk result (at self.new place.now ≡ counts_taken (at self.old place.now)) }
        ensures untaken { OnErr result ((at self.new place.now).taken ≡ (at self.old place.now).taken) }
        ensures cause { IfErr result (HasTakeCause (at self.old place.now) (at self.new place.now)) }
        ensures fresh { IfOk result (λ item. Self.Item.counts item ≡ no_counts) }
        ensures unasked { IfOk result (λ item. Self.Item.at_hand item ≡ 0) }
        ensures uncalled { IfOk result (λ item. IsUncalled (Self.Item.calls item)) }
        ensures version { IfOk result (λ item. IfSome (versions self.old place.now) (λ told. Self.Item.states item ≡ Some told)) }
        ensures list { IfOk result (λ item. IfSome (lists self.old place.now) (λ told. Self.Item.list item ≡ Some told)) }
        ensures knows { OnOk result (knows self.new place.now ≡ true) };

    /// Takes a source back that was taken of the place, counts it as returned, and adds what it counted to the counts there.
    /// Where none was ever taken of the place nothing is counted, since this call takes no memory.
    fn put_back(&mut self, place: &str, item: Self::Item)
        ensures texts { SameAtEach (texts self.old) (texts self.new) }
        ensures lists { SameAtEach (lists self.old) (lists self.new) }
        ensures versions { SameAtEach (versions self.old) (versions self.new) }
        ensures known { (other : List ℕ) → knows self.old other ≡ true → knows self.new other ≡ true }
        ensures elsewhere { SameElsewhere place.now (at self.old) (at self.new) }
        ensures counts { at self.new place.now ≡ put_back_at (knows self.old place.now) (Self.Item.counts item) (at self.old place.now) };
}
