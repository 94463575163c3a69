//! Laws of the combined algorithm of Fagin, Lotem and Naor, over whole tables.

ghost use Rattle.std.specs.Prelude.{◌≡◌, ◌≤◌, ◌↔◌, ℕ, List, length};
ghost use Rattle.ranked_list.specs.declared.row.Row.{Row};
ghost use Rattle.topk_theory.specs.declared.access.Access.{Access};
ghost use Rattle.monotone_fn.specs.Value.{IsMonotone};
ghost use Rattle.topk_theory.specs.Aggregate.{IsTop};
ghost use Rattle.topk_theory.specs.Transcript.{Agrees, IsTame};
ghost use Rattle.topk_theory.specs.Threshold.{IsAsked, item_objects};
ghost use Rattle.topk_theory.specs.Combined.{IsChoice, IsCombinedRun, ca_run, ca_answer};

/// Of the objects that a random phase may ask for one at most is the choice.
pub fn chooses_one_object()
    ensures { (V : List ℕ → ℕ) (k m : ℕ) (A : List Access) (object other : ℕ)
        → IsChoice V k m A object → IsChoice V k m A other → object ≡ other }
{}

/// On each table exactly one transcript is a run of the combined algorithm, and `ca_run` computes it.
pub fn makes_exactly_one_run()
    ensures { (V : List ℕ → ℕ) (k phase n : ℕ) (D : List (List Row)) (A : List Access) → IsMonotone V → IsAsked k n D
        → IsCombinedRun V k phase D A ↔ (A ≡ ca_run V k phase D) }
{}

/// It ends at the last depth at the latest.
pub fn ends_within_the_table()
    ensures { (V : List ℕ → ℕ) (k phase n : ℕ) (D : List (List Row)) (A : List Access) → IsMonotone V → IsAsked k n D
        → (run : IsCombinedRun V k phase D A) → run.depth ≤ n }
{}

/// What it reads is what the table gives.
pub fn reads_and_asks_the_table()
    ensures { (V : List ℕ → ℕ) (k phase n : ℕ) (D : List (List Row)) → IsMonotone V → IsAsked k n D
        → Agrees (length D) n D (ca_run V k phase D) }
{}

/// It makes no wild guess.
pub fn asks_for_seen_objects()
    ensures { (V : List ℕ → ℕ) (k phase : ℕ) (D : List (List Row)) → IsTame (ca_run V k phase D) }
{}

/// What it answers is k objects of the table that no other object beats.
pub fn answers_a_top_k_by_aggregate()
    ensures { (V : List ℕ → ℕ) (k phase n : ℕ) (D : List (List Row)) → IsMonotone V → IsAsked k n D
        → IsTop V k D (item_objects (ca_answer V k phase D)) }
{}
