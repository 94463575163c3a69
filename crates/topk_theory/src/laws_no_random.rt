//! Laws of the algorithm without random access of Fagin, Lotem and Naor, over whole tables.

ghost use Rattle.std.specs.Prelude.{◌≡◌, ◌≤◌, ℕ, List, length};
ghost use Rattle.ranked_list.specs.declared.row.Row.{Row};
ghost use Rattle.topk_theory.specs.declared.access.Access.{Access};
ghost use Rattle.monotone_fn.specs.Value.{IsMonotone};
ghost use Rattle.topk_theory.specs.Aggregate.{IsTop, aggregate};
ghost use Rattle.topk_theory.specs.Transcript.{Agrees, random_count};
ghost use Rattle.topk_theory.specs.Bounds.{low, high};
ghost use Rattle.topk_theory.specs.Threshold.{IsAsked, item_objects};
ghost use Rattle.topk_theory.specs.NoRandom.{IsLeastQuiet, nra_depth, nra_run, nra_answer};

/// On every table that agrees with a transcript each object's aggregate lies between the bounds that
/// the transcript gives it.
pub fn bounds_hold()
    ensures { (V : List ℕ → ℕ) (m n : ℕ) (D : List (List Row)) (A : List Access) (object : ℕ) → IsMonotone V
        → Agrees m n D A → (low V m A object ≤ aggregate V D object) × (aggregate V D object ≤ high V m A object) }
{}

/// The algorithm becomes quiet, at the last depth at the latest, and its depth is the least at which
/// it is.
pub fn is_quiet_at_the_least_depth()
    ensures { (V : List ℕ → ℕ) (k n : ℕ) (D : List (List Row)) → IsMonotone V → IsAsked k n D
        → IsLeastQuiet V k n D (nra_depth V k D) }
{}

/// What it answers is k objects of the table that no other object beats.
pub fn answers_a_top_k_by_bounds()
    ensures { (V : List ℕ → ℕ) (k n : ℕ) (D : List (List Row)) → IsMonotone V → IsAsked k n D
        → IsTop V k D (item_objects (nra_answer V k D)) }
{}

/// What it reads is what the table gives.
pub fn reads_the_table_in_order()
    ensures { (V : List ℕ → ℕ) (k n : ℕ) (D : List (List Row)) → IsMonotone V → IsAsked k n D
        → Agrees (length D) n D (nra_run V k D) }
{}

/// It makes no random access.
pub fn asks_for_no_grade()
    ensures { (V : List ℕ → ℕ) (k : ℕ) (D : List (List Row)) → random_count (nra_run V k D) ≡ 0 }
{}
