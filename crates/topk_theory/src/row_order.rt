//! Rows put in the order of a ranked list.

ghost use Rattle.std.specs.Prelude.{◌≡◌, ◌≢◌, length, AllPairs};
ghost use Rattle.ranked_list.specs.declared.row.Row.{Row};
ghost use Rattle.topk_theory.specs.Adversary.{by_grade};

use ranked_list::Row;
use std::cmp::Reverse;

/// Puts rows of different objects in order: by grade falling, then by the object's number rising.
/// Takes no memory.
///
/// *Cost*: a sort in place.
pub fn sort_by_grade(rows: &mut [Row])
    requires { AllPairs (λ (row : Row) (other : Row). row.object ≢ other.object) rows.old }
    ensures rows { rows.new ≡ by_grade rows.old }
    ensures count { length rows.new ≡ length rows.old }
{
    rows.sort_unstable_by_key(|row| (Reverse(row.grade), row.object));
}
