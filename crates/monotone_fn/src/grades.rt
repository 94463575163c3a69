//! The grades at which an expression is valued.

ghost use Rattle.std.specs.Prelude.{◌≡◌, ◌≤◌, length, take};
ghost use Rattle.monotone_fn.specs.Shape.{list_count};
ghost use Rattle.monotone_fn.specs.Value.{value, with_zeros, with_bottoms};
ghost use Rattle.monotone_fn.specs.Limits.{AreGrades, IsExpr};
ghost use Rattle.monotone_fn.specs.Shown.{tree_of};

use super::node::Node;
use super::value::value_at;
use topk_base::{MAX_LISTS, MAX_VALUE};

/// The value of an expression at grades. No node's value passes [`MAX_VALUE`], since none does at the top grades.
pub(crate) fn value_of(root: &Node, grades: &[u32]) -> u64
    requires made { IsExpr (tree_of root.now) }
    requires lists { length grades.now ≡ list_count (tree_of root.now) }
    requires capped { AreGrades grades.now }
    ensures value { result ≡ value (tree_of root.now) grades.now }
    ensures small { result ≤ MAX_VALUE }
{
    let mut ended = 0;
    value_at(root, grades, &mut ended).unwrap()
}

/// The grades, at the front, with 0 in place of each unknown one.
pub(crate) fn zeros_filled(known: &[Option<u32>]) -> [u32; MAX_LISTS]
    requires { length known.now ≤ MAX_LISTS }
    ensures { take (length known.now) result ≡ with_zeros known.now }
{
    let mut grades = [0; MAX_LISTS];
    for (list, grade) in known.iter().enumerate() {
        grades[list] = grade.unwrap_or(0);
    }
    grades
}

/// The grades, at the front, with the list's bottom in place of each unknown one.
pub(crate) fn bottoms_filled(known: &[Option<u32>], bottoms: &[u32]) -> [u32; MAX_LISTS]
    requires few { length known.now ≤ MAX_LISTS }
    requires as_many { length bottoms.now ≡ length known.now }
    ensures { take (length known.now) result ≡ with_bottoms known.now bottoms.now }
{
    let mut grades = [0; MAX_LISTS];
    for (list, grade) in known.iter().enumerate() {
        grades[list] = grade.unwrap_or(bottoms[list]);
    }
    grades
}
