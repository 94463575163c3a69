//! Laws of transcripts: when a table agrees with one.

ghost use Rattle.std.specs.Prelude.{◌≡◌, ◌<◌, ◌≤◌, ◌↔◌, ℕ, List, [], ◌∷◌, ◌++◌, length, All, Contains};
ghost use Rattle.ranked_list.specs.declared.row.Row.{Row};
ghost use Rattle.ranked_list.specs.Table.{IsTable, grade_in};
ghost use Rattle.topk_theory.specs.declared.access.Access.{Access};
ghost use Rattle.topk_theory.specs.Aggregate.{objects_of};
ghost use Rattle.topk_theory.specs.Transcript.{Told, Grows, IsDrawn, Agrees, whole, Gives, list_at, object_of, named_objects};
ghost use Rattle.topk_theory.specs.Bounds.{known_grade};
ghost use Rattle.topk_theory.specs.Consistent.{Kind, IsOfKind, IsFirstKind, SomeAgrees, HasNoFault};

/// A table agrees with a transcript exactly where it agrees with all but its last access and gives
/// that one after them.
pub fn tables_agree_access_by_access()
    ensures { (m n : ℕ) (D : List (List Row)) (A : List Access) (access : Access)
        → Agrees m n D (A ++ access ∷ []) ↔ (Agrees m n D A × Gives (whole D) A access) }
{}

/// What is drawn from lists stays so when more of them is told. Drawn from the whole lists of a table,
/// it is what the table agrees with.
pub fn what_is_drawn_stays_drawn()
    ensures more { (m : ℕ) (T U : Told) (A : List Access) → Grows m T U → IsDrawn m T A → IsDrawn m U A }
    ensures whole { (n : ℕ) (D : List (List Row)) (A : List Access) → IsTable n D
        → Agrees (length D) n D A ↔ IsDrawn (length D) (whole D) A }
{}

/// The objects that a transcript names are those of each table that agrees with it, and each grade
/// that it knows is the table's.
pub fn what_is_known_is_true()
    ensures { (m n : ℕ) (D : List (List Row)) (A : List Access) → Agrees m n D A
        → ((object : ℕ) → Contains (named_objects A) object → Contains (objects_of D) object)
        × ((object list grade : ℕ) → list < m → known_grade A object list ≡ Some grade → grade_in (list_at D list) object ≡ grade) }
{}

/// Where one more access is of one of the eight kinds, no table agrees with the longer transcript.
pub fn each_kind_excludes_every_table()
    ensures { (m n : ℕ) (A : List Access) (access : Access) (kind : Kind) → IsOfKind m n A access kind
        → (D : List (List Row)) → ¬ Agrees m n D (A ++ access ∷ []) }
{}

/// Where some table agrees with a transcript and one more access is of none of the eight kinds, some
/// table agrees with the longer one. Its objects stay below any bound that those of the accesses
/// and their number keep.
pub fn no_kind_leaves_a_table()
    ensures { (m n bound : ℕ) (A : List Access) (access : Access) → SomeAgrees m n A
        → ((kind : Kind) → ¬ IsOfKind m n A access kind)
        → n ≤ bound → All (λ one. object_of one < bound) (A ++ access ∷ [])
        → (D : List (List Row)) × Agrees m n D (A ++ access ∷ []) × All (λ object. object < bound) (objects_of D) }
{}

/// Some table agrees with a transcript exactly where none of its accesses is of any of the eight
/// kinds against those before it.
pub fn some_table_agrees_where_no_access_is_at_fault()
    ensures { (m n : ℕ) (A : List Access) → SomeAgrees m n A ↔ HasNoFault m n A }
{}

/// No access has two first kinds.
pub fn the_first_kind_is_one()
    ensures { (m n : ℕ) (A : List Access) (access : Access) (kind other : Kind)
        → IsFirstKind m n A access kind → IsFirstKind m n A access other → kind ≡ other }
{}
