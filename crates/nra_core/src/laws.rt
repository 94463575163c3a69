//! Laws of bounds that are renewed late.

ghost use Rattle.std.specs.Prelude.{◌≡◌, ◌↔◌, ◌<◌, ◌≤◌, ◌-◌, ◌∷◌, ◌++◌, [], ℕ, Bool, true, false, Some, List, length, Contains};
ghost use Rattle.ranked_list.specs.declared.row.Row.{Row};
ghost use Rattle.ranked_list.specs.declared.item.Item.{Item};
ghost use Rattle.monotone_fn.specs.Value.{IsMonotone};
ghost use Rattle.topk_theory.specs.declared.access.Access.{Access};
ghost use Rattle.topk_theory.specs.Order.{AreDistinct, in_order, first_k, kth_low};
ghost use Rattle.topk_theory.specs.Transcript.{Agrees, object_of, named_objects, seen_objects};
ghost use Rattle.topk_theory.specs.Bounds.{low, high, threshold};
ghost use Rattle.topk_theory.specs.NoRandom.{is_quiet};
ghost use Rattle.nra_core.specs.Quiet.{is_quiet_seen};
ghost use Rattle.nra_core.specs.Late.{AreFirstByLow, IsLeastLow, AreOthersWithin, MayStop, KeepsCandidates, IsWitness, AreNextBounds, above_low, at_low};

/// On a table that agrees, the algorithm is quiet exactly where it may stop by any k seen objects with the greatest
/// lows: the order among ties decides nothing.
pub fn stops_where_the_others_are_within()
    ensures { (V : List ℕ → ℕ) (k n : ℕ) (D : List (List Row)) (A : List Access) (is_top : ℕ → Bool) (bound : ℕ)
        → 1 ≤ k → 0 < length D
        → ((object : ℕ) → Contains (named_objects A) object → Contains (seen_objects A) object)
        → Agrees (length D) n D A → AreFirstByLow k (low V (length D) A) (seen_objects A) is_top
        → (k ≤ length (seen_objects A) → IsLeastLow (low V (length D) A) is_top bound)
        → (is_quiet V k (length D) D A ≡ true) ↔ MayStop k n (threshold V (length D) A) (low V (length D) A)
        (high V (length D) A) (seen_objects A) is_top bound }
{}

/// What the transcript alone shows is what the definition over the table says: on a table that agrees with it, where
/// each object that an access names was seen, the algorithm is quiet exactly where the transcript shows it.
pub fn a_transcript_shows_that_it_is_quiet()
    ensures { (V : List ℕ → ℕ) (k n : ℕ) (D : List (List Row)) (A : List Access) → 0 < length D
        → ((object : ℕ) → Contains (named_objects A) object → Contains (seen_objects A) object)
        → Agrees (length D) n D A → is_quiet V k (length D) D A ≡ is_quiet_seen V k (length D) n A }
{}

/// With one more access of a table no low falls, no high rises, and only the named object's low changes.
pub fn renewed_bounds_close_in()
    ensures { (V : List ℕ → ℕ) (m n : ℕ) (D : List (List Row)) (A : List Access) (access : Access) → IsMonotone V
        → Agrees m n D (A ++ access ∷ [])
        → AreNextBounds (low V m A) (high V m A) (low V m (A ++ access ∷ [])) (high V m (A ++ access ∷ []))
        (object_of access) }
{}

/// Once k objects are seen the least of the k greatest lows only rises, and a high that is no greater stays so: what
/// is given up is given up for good.
pub fn what_is_given_up_stays_given_up()
    ensures { (k : ℕ) (low high next next_high : ℕ → ℕ) (seen more : List ℕ) (is_top then : ℕ → Bool)
        (object bound after outside : ℕ) → AreNextBounds low high next next_high object → k ≤ length seen
        → AreFirstByLow k low seen is_top → IsLeastLow low is_top bound
        → AreFirstByLow k next (seen ++ more) then → IsLeastLow next then after
        → high outside ≤ bound → next_high outside ≤ after }
{}

/// Where no candidate has a high above the bound, no object outside the first stands against the stop.
pub fn a_walk_without_candidates_ends_within()
    ensures { (k : ℕ) (low high : ℕ → ℕ) (seen : List ℕ) (is_top is_candidate : ℕ → Bool) (bound : ℕ)
        → KeepsCandidates k low high seen is_top is_candidate → IsLeastLow low is_top bound
        → ((object : ℕ) → is_candidate object ≡ true → high object ≤ bound)
        → AreOthersWithin low high seen is_top bound }
{}

/// A witness outside the first stands against the stop.
pub fn a_witness_stands_against_the_stop()
    ensures { (low high : ℕ → ℕ) (seen : List ℕ) (is_top : ℕ → Bool) (bound object : ℕ) → Contains seen object
        → is_top object ≡ false → IsWitness low high is_top bound object
        → ¬ AreOthersWithin low high seen is_top bound }
{}

/// The first k items are those with a low above the k-th, in order, and of those with the k-th low as many as are
/// wanting, the first by high and number.
pub fn first_are_those_above_and_the_first_tied()
    ensures { (k : ℕ) (items : List Item) (bound : ℕ) → 1 ≤ k → AreDistinct items → kth_low k items ≡ Some bound
        → first_k k items ≡ in_order (above_low bound items)
        ++ first_k (k - length (above_low bound items)) (at_low bound items) }
{}
