//! Laws of the threshold algorithm over restricted lists, on whole tables.

ghost use Rattle.std.specs.Prelude.{◌≡◌, ◌≤◌, ◌*◌, ◌↔◌, ◌++◌, ℕ, suc, Bool, List, [], length, filter, All, Contains};
ghost use Rattle.ranked_list.specs.declared.row.Row.{Row};
ghost use Rattle.ranked_list.specs.Table.{IsTable};
ghost use Rattle.monotone_fn.specs.Value.{IsMonotone};
ghost use Rattle.topk_theory.specs.Aggregate.{IsTop};
ghost use Rattle.topk_theory.specs.Transcript.{Agrees, IsTame, list_numbers, seen_objects, depth};
ghost use Rattle.topk_theory.specs.Bounds.{threshold};
ghost use Rattle.topk_theory.specs.Threshold.{IsAsked, item_objects};
ghost use Rattle.topk_theory.specs.Combined.{unknown_lists};
ghost use Rattle.algorithm_theory.specs.Restricted.{HasOne, IsLeastRestricted, ReadsIn, TazStopsInTime, TazIsNearBest, taz_objects, taz_threshold, taz_depth, row_of_first, must_ask, taz_run_to, taz_run, taz_answer};

/// The algorithm stops, at the last depth at the latest, and its depth is the least at which it may stop.
pub fn stops_at_the_least_depth()
    ensures { (V : List ℕ → ℕ) (k n : ℕ) (Z : ℕ → Bool) (D : List (List Row)) → IsAsked k n D → HasOne Z (length D)
        → IsLeastRestricted V k n Z D (taz_depth V k Z D) }
{}

/// What it reads is what the table gives.
pub fn reads_rows_and_asks_the_table()
    ensures { (V : List ℕ → ℕ) (k n : ℕ) (Z : ℕ → Bool) (D : List (List Row)) → IsAsked k n D → HasOne Z (length D)
        → Agrees (length D) n D (taz_run V k Z D) }
{}

/// It makes no sorted access to a list outside the set.
pub fn reads_in_order_what_it_may()
    ensures { (V : List ℕ → ℕ) (k n : ℕ) (Z : ℕ → Bool) (D : List (List Row)) → IsAsked k n D → HasOne Z (length D)
        → ReadsIn Z (taz_run V k Z D) }
{}

/// It reads down to its depth.
pub fn reads_so_deep()
    ensures { (V : List ℕ → ℕ) (k n : ℕ) (Z : ℕ → Bool) (D : List (List Row)) → IsAsked k n D → HasOne Z (length D)
        → depth (length D) (taz_run V k Z D) ≡ taz_depth V k Z D }
{}

/// It makes no more than two accesses to each list for each object.
pub fn reads_so_much()
    ensures { (V : List ℕ → ℕ) (k n : ℕ) (Z : ℕ → Bool) (D : List (List Row)) → IsAsked k n D → HasOne Z (length D)
        → length (taz_run V k Z D) ≤ 2 * (length D * n) }
{}

/// It makes no wild guess.
pub fn asks_for_seen_objects()
    ensures { (V : List ℕ → ℕ) (k : ℕ) (Z : ℕ → Bool) (D : List (List Row)) → IsTame (taz_run V k Z D) }
{}

/// After a row it asks for the objects that no row above gave, each in the lists that can't be read in order and in those where it
/// stands lower; of the others no grade is unknown.
pub fn asks_where_objects_stand_lower()
    ensures new { (n depth object : ℕ) (Z : ℕ → Bool) (D : List (List Row)) → IsTable n D → suc depth ≤ n
        → Contains (seen_objects (taz_run_to Z D depth ++ row_of_first Z D (suc depth) (length D))) object → ¬ Contains (seen_objects (taz_run_to Z D depth)) object
        → unknown_lists (length D) (taz_run_to Z D depth ++ row_of_first Z D (suc depth) (length D)) object ≡ filter (must_ask Z D (suc depth) object) (list_numbers (length D)) }
    ensures old { (depth object : ℕ) (Z : ℕ → Bool) (D : List (List Row)) → Contains (seen_objects (taz_run_to Z D depth)) object
        → unknown_lists (length D) (taz_run_to Z D depth) object ≡ [] }
{}

/// In the end it knows all grades of the objects that it has seen.
pub fn asks_for_what_is_unknown()
    ensures { (V : List ℕ → ℕ) (k : ℕ) (Z : ℕ → Bool) (D : List (List Row))
        → All (λ object. unknown_lists (length D) (taz_run V k Z D) object ≡ []) (seen_objects (taz_run V k Z D)) }
{}

/// The threshold at a depth is that of the accesses down to there: a list outside the set has the greatest grade as its bottom.
pub fn has_the_threshold_of_what_it_read()
    ensures { (V : List ℕ → ℕ) (n depth : ℕ) (Z : ℕ → Bool) (D : List (List Row)) → IsTable n D → 1 ≤ depth → depth ≤ n
        → threshold V (length D) (taz_run_to Z D depth) ≡ taz_threshold V Z D depth }
{}

/// It sees what stands down to its depth in a list that can be read in order.
pub fn sees_what_stands_there()
    ensures { (V : List ℕ → ℕ) (k n : ℕ) (Z : ℕ → Bool) (D : List (List Row)) → IsAsked k n D → HasOne Z (length D) → (object : ℕ)
        → Contains (seen_objects (taz_run V k Z D)) object ↔ Contains (taz_objects Z D (taz_depth V k Z D)) object }
{}

/// Each object of its answer was given by one of its sorted accesses.
pub fn sees_its_answer()
    ensures { (V : List ℕ → ℕ) (k n : ℕ) (Z : ℕ → Bool) (D : List (List Row)) → IsAsked k n D → HasOne Z (length D)
        → All (Contains (seen_objects (taz_run V k Z D))) (item_objects (taz_answer V k Z D)) }
{}

/// What it answers is k objects of the table that no other object beats.
pub fn answers_a_top_k()
    ensures { (V : List ℕ → ℕ) (k n : ℕ) (Z : ℕ → Bool) (D : List (List Row)) → IsMonotone V → IsAsked k n D → HasOne Z (length D)
        → IsTop V k D (item_objects (taz_answer V k Z D)) }
{}

/// It reads no deeper than the objects that a tame transcript sees before it fixes an answer over the table's objects, and k
/// more, where that one makes no sorted access to a list outside the set either.
pub fn stops_in_time()
    ensures { TazStopsInTime }
{}

/// A transcript that is its run on every table that agrees with it is bounded so, on each of them, by every such transcript.
pub fn is_near_best()
    ensures { TazIsNearBest }
{}
