//! Laws of Fagin's algorithm, over whole tables.

ghost use Rattle.std.specs.Prelude.{◌≡◌, ◌≤◌, ◌*◌, ◌↔◌, ℕ, List, [], length, All, AllPairs, Contains, nat_le};
ghost use Rattle.ranked_list.specs.declared.row.Row.{Row};
ghost use Rattle.ranked_list.specs.Table.{IsTable};
ghost use Rattle.monotone_fn.specs.Value.{IsMonotone};
ghost use Rattle.topk_theory.specs.declared.access.Access.{Access};
ghost use Rattle.topk_theory.specs.Aggregate.{IsTop};
ghost use Rattle.topk_theory.specs.Transcript.{Agrees, IsTame, seen_objects, depth};
ghost use Rattle.topk_theory.specs.Fixes.{Fixes};
ghost use Rattle.topk_theory.specs.Threshold.{IsAsked, objects_to, ta_depth, item_objects};
ghost use Rattle.topk_theory.specs.NoRandom.{nra_run_to};
ghost use Rattle.topk_theory.specs.Combined.{unknown_lists};
ghost use Rattle.algorithm_theory.specs.Optimal.{IsAlwaysRun};
ghost use Rattle.algorithm_theory.specs.Fagin.{IsLeastCommon, IsSeenBefore, IsNoShallower, fa_stop, fa_depth, fa_run, fa_answer, known_whole};

/// The algorithm stops, at the last depth at the latest, and its depth is the least at which at least k
/// objects stand in the first so many places of every list.
pub fn stops_at_the_least_common_depth()
    ensures { (k n : ℕ) (D : List (List Row)) → IsAsked k n D → IsLeastCommon k n D (fa_depth k D) }
{}

/// On each table the threshold algorithm stops no deeper.
pub fn stops_no_higher_than_the_threshold_algorithm()
    ensures { (V : List ℕ → ℕ) (k n : ℕ) (D : List (List Row)) → IsMonotone V → IsAsked k n D → ta_depth V k D ≤ fa_depth k D }
{}

/// The rows down to a depth give the objects that stand there in some list, by their least places and at equal
/// ones in the order of the lists.
pub fn sees_by_place_and_list()
    ensures objects { (n depth : ℕ) (D : List (List Row)) → IsTable n D → depth ≤ n
        → (object : ℕ) → Contains (seen_objects (nra_run_to D depth)) object ↔ Contains (objects_to D depth) object }
    ensures order { (n depth : ℕ) (D : List (List Row)) → IsTable n D → depth ≤ n
        → AllPairs (IsSeenBefore D) (seen_objects (nra_run_to D depth)) }
{}

/// The rows alone show whether it stops: where they make all grades of at least k seen objects known.
pub fn shows_when_it_stops()
    ensures { (k n depth : ℕ) (D : List (List Row)) → IsAsked k n D → depth ≤ n
        → fa_stop k D depth ≡ nat_le k (known_whole (length D) (nra_run_to D depth)) }
{}

/// What it reads is what the table gives.
pub fn reads_rows_and_asks_the_table()
    ensures { (k n : ℕ) (D : List (List Row)) → IsAsked k n D → Agrees (length D) n D (fa_run k D) }
{}

/// It reads down to its depth.
pub fn reads_so_deep()
    ensures { (k n : ℕ) (D : List (List Row)) → IsAsked k n D → depth (length D) (fa_run k D) ≡ fa_depth k D }
{}

/// A transcript that is its run on every table that agrees with it is, on each of them, no shallower than the
/// threshold algorithm.
pub fn reads_no_shallower_than_the_threshold_algorithm()
    ensures { (V : List ℕ → ℕ) (k m n : ℕ) (A : List Access) → IsMonotone V → IsAlwaysRun (fa_run k) k m n A
        → IsNoShallower V k m n A }
{}

/// It makes no more than two accesses to each list for each object.
pub fn reads_so_much()
    ensures { (k n : ℕ) (D : List (List Row)) → IsAsked k n D → length (fa_run k D) ≤ 2 * (length D * n) }
{}

/// It makes no wild guess.
pub fn asks_for_seen_objects()
    ensures { (k : ℕ) (D : List (List Row)) → IsTame (fa_run k D) }
{}

/// In the end it knows all grades of the objects that it has seen.
pub fn asks_for_what_is_unknown()
    ensures { (k : ℕ) (D : List (List Row)) → All (λ object. unknown_lists (length D) (fa_run k D) object ≡ []) (seen_objects (fa_run k D)) }
{}

/// Each object of its answer was given by one of its sorted accesses.
pub fn sees_its_answer()
    ensures { (V : List ℕ → ℕ) (k : ℕ) (D : List (List Row)) → All (Contains (seen_objects (fa_run k D))) (item_objects (fa_answer V k D)) }
{}

/// What it answers is k objects of the table that no other object beats.
pub fn answers_a_top_k_of_the_seen()
    ensures { (V : List ℕ → ℕ) (k n : ℕ) (D : List (List Row)) → IsMonotone V → IsAsked k n D
        → IsTop V k D (item_objects (fa_answer V k D)) }
{}

/// Every table that agrees with the run has the same run and the same answer.
pub fn is_the_same_on_each_table_that_agrees()
    ensures { (V : List ℕ → ℕ) (k n : ℕ) (D E : List (List Row)) → IsAsked k n D → Agrees (length D) n E (fa_run k D)
        → (fa_run k E ≡ fa_run k D) × (fa_answer V k E ≡ fa_answer V k D) }
{}

/// So what it reads fixes what it answers.
pub fn fixes_its_answer()
    ensures { (V : List ℕ → ℕ) (k n : ℕ) (D : List (List Row)) → IsMonotone V → IsAsked k n D
        → Fixes V k (length D) n (fa_run k D) (item_objects (fa_answer V k D)) }
{}
