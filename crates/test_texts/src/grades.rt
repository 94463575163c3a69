//! What grades are.

ghost use Rattle.std.specs.Prelude.{IsTrue};
ghost use Rattle.monotone_fn.specs.Limits.{AreGrades};

use topk_base::TOP_GRADE;

/// Whether each number is a grade.
pub(super) fn are_grades(numbers: &[u32]) -> bool
    ensures { IsTrue result → AreGrades numbers.now }
{
    numbers.iter().all(|number| *number <= TOP_GRADE)
}
