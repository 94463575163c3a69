//! Laws of the threshold algorithm stopped within a factor, and early, over whole tables.

ghost use Rattle.std.specs.Prelude.{◌≡◌, ◌<◌, ◌≤◌, ◌↔◌, ℕ, min, List, length, map, All, Contains};
ghost use Rattle.ranked_list.specs.declared.row.Row.{Row};
ghost use Rattle.monotone_fn.specs.Value.{IsMonotone, IsLeast, least};
ghost use Rattle.topk_theory.specs.declared.access.Access.{Access};
ghost use Rattle.topk_theory.specs.Aggregate.{IsTop, aggregate};
ghost use Rattle.topk_theory.specs.Transcript.{Begins, Agrees, IsTame, seen_objects, depth};
ghost use Rattle.topk_theory.specs.Consistent.{SomeAgrees};
ghost use Rattle.topk_theory.specs.Fixes.{Fixes};
ghost use Rattle.topk_theory.specs.Adversary.{MayBeObjects};
ghost use Rattle.topk_theory.specs.Threshold.{IsAsked, threshold_at, ta_depth, ta_run, ta_answer, item_objects};
ghost use Rattle.algorithm_theory.specs.Within.{Factor, IsWithin, FixesWithin, FixesWithinOver, BoundsPartWithin};
ghost use Rattle.algorithm_theory.specs.Nearby.{IsLeastPassing, theta_stop, theta_depth, theta_run, theta_answer};
ghost use Rattle.algorithm_theory.specs.Nearby.{enough_depth, early_stop, early_depth, early_run, early_answer};
ghost use Rattle.algorithm_theory.specs.Guarantee.{exact_factor, factor_over, early_guarantee};

/// Where some table agrees with a transcript, it fixes over a set of objects that an answer is within a factor
/// exactly where no object outside has a high of more than the factor times the low of one inside.
pub fn fixes_within_where_the_bounds_part()
    ensures { (V : List ℕ → ℕ) (k : ℕ) (factor : Factor) (m n : ℕ) (O : List ℕ) (A : List Access) (Y : List ℕ) → IsMonotone V → 0 < m
        → SomeAgrees m n A → MayBeObjects n A O → FixesWithinOver V k factor m n O A Y ↔ BoundsPartWithin V k factor m O A Y }
{}

/// Within the factor 1 an answer is a top k, and fixed so exactly where it is fixed.
pub fn is_a_top_k_within_the_factor_1()
    ensures top { (V : List ℕ → ℕ) (k : ℕ) (D : List (List Row)) (Y : List ℕ) → IsWithin V k exact_factor D Y ↔ IsTop V k D Y }
    ensures fixed { (V : List ℕ → ℕ) (k m n : ℕ) (A : List Access) (Y : List ℕ) → FixesWithin V k exact_factor m n A Y ↔ Fixes V k m n A Y }
{}

/// Each stops, at the last depth at the latest, and its depth is the least at which it does.
pub fn stop_at_the_least_depth()
    ensures within { (V : List ℕ → ℕ) (k n : ℕ) (factor : Factor) (D : List (List Row)) → IsMonotone V → IsAsked k n D → factor.q ≤ factor.p
        → IsLeastPassing (theta_stop V k factor D) n (theta_depth V k factor D) }
    ensures early { (V : List ℕ → ℕ) (k n from : ℕ) (D : List (List Row)) → IsMonotone V → IsAsked k n D
        → IsLeastPassing (early_stop V k from D) n (early_depth V k from D) }
{}

/// An early stop is at the depth of the threshold algorithm, or at the least depth from the given one on at which
/// at least k objects were seen, whichever is less.
pub fn stops_early_at_the_lesser_depth()
    ensures { (V : List ℕ → ℕ) (k n from : ℕ) (D : List (List Row)) → IsMonotone V → IsAsked k n D → 1 ≤ from
        → early_depth V k from D ≡ min (ta_depth V k D) (enough_depth k from D) }
{}

/// Each stops no deeper than the threshold algorithm.
pub fn stop_no_deeper_than_the_threshold_algorithm()
    ensures within { (V : List ℕ → ℕ) (k n : ℕ) (factor : Factor) (D : List (List Row)) → IsMonotone V → IsAsked k n D → factor.q ≤ factor.p
        → theta_depth V k factor D ≤ ta_depth V k D }
    ensures early { (V : List ℕ → ℕ) (k n from : ℕ) (D : List (List Row)) → IsMonotone V → IsAsked k n D
        → early_depth V k from D ≤ ta_depth V k D }
{}

/// So what each reads is how the run of the threshold algorithm begins.
pub fn read_how_the_threshold_algorithm_begins()
    ensures within { (V : List ℕ → ℕ) (k n : ℕ) (factor : Factor) (D : List (List Row)) → IsMonotone V → IsAsked k n D → factor.q ≤ factor.p
        → Begins (theta_run V k factor D) (ta_run V k D) }
    ensures early { (V : List ℕ → ℕ) (k n from : ℕ) (D : List (List Row)) → IsMonotone V → IsAsked k n D
        → Begins (early_run V k from D) (ta_run V k D) }
{}

/// Within the factor 1, and where it may stop early only from the depth of the threshold algorithm on, each is that
/// algorithm.
pub fn are_the_threshold_algorithm()
    ensures within { (V : List ℕ → ℕ) (k n : ℕ) (factor : Factor) (D : List (List Row)) → IsMonotone V → IsAsked k n D
        → 1 ≤ factor.p → factor.q ≡ factor.p → (theta_run V k factor D ≡ ta_run V k D) × (theta_answer V k factor D ≡ ta_answer V k D) }
    ensures early { (V : List ℕ → ℕ) (k n from : ℕ) (D : List (List Row)) → IsMonotone V → IsAsked k n D → ta_depth V k D ≤ from
        → (early_run V k from D ≡ ta_run V k D) × (early_answer V k from D ≡ ta_answer V k D) }
{}

/// What each reads is what the table gives.
pub fn read_the_table()
    ensures within { (V : List ℕ → ℕ) (k n : ℕ) (factor : Factor) (D : List (List Row)) → IsMonotone V → IsAsked k n D → factor.q ≤ factor.p
        → Agrees (length D) n D (theta_run V k factor D) }
    ensures early { (V : List ℕ → ℕ) (k n from : ℕ) (D : List (List Row)) → IsMonotone V → IsAsked k n D
        → Agrees (length D) n D (early_run V k from D) }
{}

/// Each reads down to its depth.
pub fn read_so_deep()
    ensures within { (V : List ℕ → ℕ) (k n : ℕ) (factor : Factor) (D : List (List Row)) → IsMonotone V → IsAsked k n D → factor.q ≤ factor.p
        → depth (length D) (theta_run V k factor D) ≡ theta_depth V k factor D }
    ensures early { (V : List ℕ → ℕ) (k n from : ℕ) (D : List (List Row)) → IsMonotone V → IsAsked k n D
        → depth (length D) (early_run V k from D) ≡ early_depth V k from D }
{}

/// Neither makes a wild guess.
pub fn guess_nothing()
    ensures within { (V : List ℕ → ℕ) (k n : ℕ) (factor : Factor) (D : List (List Row)) → IsMonotone V → IsAsked k n D → factor.q ≤ factor.p
        → IsTame (theta_run V k factor D) }
    ensures early { (V : List ℕ → ℕ) (k n from : ℕ) (D : List (List Row)) → IsMonotone V → IsAsked k n D → IsTame (early_run V k from D) }
{}

/// Each object of an answer was given by one of the sorted accesses.
pub fn see_their_answers()
    ensures within { (V : List ℕ → ℕ) (k n : ℕ) (factor : Factor) (D : List (List Row)) → IsMonotone V → IsAsked k n D → factor.q ≤ factor.p
        → All (Contains (seen_objects (theta_run V k factor D))) (item_objects (theta_answer V k factor D)) }
    ensures early { (V : List ℕ → ℕ) (k n from : ℕ) (D : List (List Row)) → IsMonotone V → IsAsked k n D
        → All (Contains (seen_objects (early_run V k from D))) (item_objects (early_answer V k from D)) }
{}

/// What is guaranteed of an early stop is, on its table, the threshold at its depth over the least aggregate of its answer.
pub fn guarantees_by_the_aggregates()
    ensures { (V : List ℕ → ℕ) (k n from : ℕ) (D : List (List Row)) → IsMonotone V → IsAsked k n D
        → early_guarantee V (length D) (early_run V k from D) (item_objects (early_answer V k from D))
        ≡ factor_over (threshold_at V D (early_depth V k from D)) (least (map (aggregate V D) (item_objects (early_answer V k from D)))) }
{}

/// The least of numbers is one of them, and none is less; a factor over it is at least 1.
pub fn is_over_the_least()
    ensures least { (numbers : List ℕ) → 0 < length numbers → IsLeast numbers (least numbers) }
    ensures factor { (bound fewest : ℕ) → (factor_over bound fewest).q ≤ (factor_over bound fewest).p }
{}

/// The answer is within the factor, or within what is guaranteed of the early stop.
pub fn answer_within_what_they_guarantee()
    ensures within { (V : List ℕ → ℕ) (k n : ℕ) (factor : Factor) (D : List (List Row)) → IsMonotone V → IsAsked k n D → factor.q ≤ factor.p
        → IsWithin V k factor D (item_objects (theta_answer V k factor D)) }
    ensures early { (V : List ℕ → ℕ) (k n from : ℕ) (D : List (List Row)) → IsMonotone V → IsAsked k n D
        → IsWithin V k (early_guarantee V (length D) (early_run V k from D) (item_objects (early_answer V k from D))) D
        (item_objects (early_answer V k from D)) }
{}

/// And what was read fixes this: it is so on every table that agrees with the run.
pub fn fix_what_they_guarantee()
    ensures within { (V : List ℕ → ℕ) (k n : ℕ) (factor : Factor) (D : List (List Row)) → IsMonotone V → IsAsked k n D → factor.q ≤ factor.p
        → FixesWithin V k factor (length D) n (theta_run V k factor D) (item_objects (theta_answer V k factor D)) }
    ensures early { (V : List ℕ → ℕ) (k n from : ℕ) (D : List (List Row)) → IsMonotone V → IsAsked k n D
        → FixesWithin V k (early_guarantee V (length D) (early_run V k from D) (item_objects (early_answer V k from D))) (length D) n
        (early_run V k from D) (item_objects (early_answer V k from D)) }
{}

/// What a transcript fixes is so on each table that agrees with it.
pub fn holds_where_it_is_fixed()
    ensures { (V : List ℕ → ℕ) (k : ℕ) (factor : Factor) (m n : ℕ) (A : List Access) (Y : List ℕ) (D : List (List Row)) → 0 < m
        → FixesWithin V k factor m n A Y → Agrees m n D A → IsWithin V k factor D Y }
{}
