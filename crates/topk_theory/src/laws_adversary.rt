//! Laws of the table of an adversary: what it gives wherever a transcript leaves the grades open.

ghost use Rattle.std.specs.Prelude.{◌≢◌, ◌<◌, ◌↔◌, ℕ, List, AllPairs};
ghost use Rattle.ranked_list.specs.declared.row.Row.{Row};
ghost use Rattle.topk_theory.specs.declared.access.Access.{Access};
ghost use Rattle.monotone_fn.specs.Value.{IsMonotone};
ghost use Rattle.topk_theory.specs.Transcript.{Agrees};
ghost use Rattle.topk_theory.specs.Fixes.{IsOver, FixesOver};
ghost use Rattle.topk_theory.specs.Consistent.{SomeAgrees};
ghost use Rattle.topk_theory.specs.Adversary.{MayBeObjects, CanComplete, IsCompletion, completed, against, HoldsAgainst, BoundsPart, by_grade, IsByGrade};

/// Whatever grades are chosen under the bottoms of the lists for those that no access gave, the table
/// that is completed with them agrees with the transcript and has them.
pub fn completes_with_any_choice()
    ensures { (choose : ℕ → ℕ → ℕ) (O : List ℕ) (m n : ℕ) (A : List Access) → 0 < m
        → CanComplete choose O m n A → IsCompletion choose O m n A (completed choose O m A) }
{}

/// Below the rows that were read, a completed list has the other objects by grade falling, then by
/// number rising.
pub fn completes_in_order()
    ensures { (rows : List Row) → AllPairs (λ (one : Row) (other : Row). one.object ≢ other.object) rows
        → IsByGrade rows (by_grade rows) }
{}

/// Where some table agrees with a transcript, some table over each set of so many objects that has
/// the named ones agrees with it.
pub fn some_table_agrees_over_each_set()
    ensures { (m n : ℕ) (A : List Access) (O : List ℕ) → 0 < m → SomeAgrees m n A → MayBeObjects n A O
        → (D : List (List Row)) × Agrees m n D A × IsOver O D }
{}

/// Where some table agrees with a transcript, over each set of objects that may be a table's one
/// object can have its low while every other has its high.
pub fn bounds_are_reached_in_one_table()
    ensures { (V : List ℕ → ℕ) (m n : ℕ) (A : List Access) (O : List ℕ) (inside : ℕ) → 0 < m → SomeAgrees m n A
        → MayBeObjects n A O → HoldsAgainst V m n A O inside (completed (against inside A) O m A) }
{}

/// Where some table agrees with a transcript, it fixes an answer over a set of objects exactly where no
/// object outside has a high above the low of one inside.
pub fn fixes_where_the_bounds_part()
    ensures { (V : List ℕ → ℕ) (k m n : ℕ) (O : List ℕ) (A : List Access) (Y : List ℕ) → IsMonotone V → 0 < m
        → SomeAgrees m n A → MayBeObjects n A O → FixesOver V k m n O A Y ↔ BoundsPart V k m O A Y }
{}
