//! Laws of the threshold algorithm of Fagin, Lotem and Naor, over whole tables.

ghost use Rattle.std.specs.Prelude.{ℕ, List, All, Contains, length};
ghost use Rattle.ranked_list.specs.declared.row.Row.{Row};
ghost use Rattle.monotone_fn.specs.Value.{IsMonotone};
ghost use Rattle.topk_theory.specs.Aggregate.{IsTop};
ghost use Rattle.topk_theory.specs.Transcript.{Agrees, IsTame, seen_objects};
ghost use Rattle.topk_theory.specs.Threshold.{IsAsked, IsLeastDepth, ta_depth, ta_run, ta_answer, item_objects};

/// The algorithm stops, at the last depth at the latest, and its depth is the least at which it does.
pub fn stops_at_the_least_depth()
    ensures { (V : List ℕ → ℕ) (k n : ℕ) (D : List (List Row)) → IsMonotone V → IsAsked k n D
        → IsLeastDepth V k n D (ta_depth V k D) }
{}

/// What it answers is k objects of the table that no other object beats.
pub fn answers_a_top_k()
    ensures { (V : List ℕ → ℕ) (k n : ℕ) (D : List (List Row)) → IsMonotone V → IsAsked k n D
        → IsTop V k D (item_objects (ta_answer V k D)) }
{}

/// What it reads is what the table gives.
pub fn reads_the_table()
    ensures { (V : List ℕ → ℕ) (k n : ℕ) (D : List (List Row)) → IsMonotone V → IsAsked k n D
        → Agrees (length D) n D (ta_run V k D) }
{}

/// Each object of its answer was given by one of its sorted accesses.
pub fn sees_its_answer()
    ensures { (V : List ℕ → ℕ) (k n : ℕ) (D : List (List Row)) → IsMonotone V → IsAsked k n D
        → All (Contains (seen_objects (ta_run V k D))) (item_objects (ta_answer V k D)) }
{}

/// It makes no wild guess: each of its random accesses names an object that it has seen.
pub fn guesses_nothing()
    ensures { (V : List ℕ → ℕ) (k n : ℕ) (D : List (List Row)) → IsMonotone V → IsAsked k n D
        → IsTame (ta_run V k D) }
{}
