//! What the words of the contracts mean: laws on logs.

ghost use Rattle.std.specs.Prelude.{◌≡◌, ◌-◌, ◌++◌, ℕ, Some, None, List, slice_get, Contains};
ghost use Rattle.ranked_list.specs.declared.row.Row.{Row};
ghost use Rattle.ranked_list.specs.declared.need.Need.TheVariants as need;
ghost use Rattle.topk_theory.specs.Bounds.{grade_among};
ghost use Rattle.source_state.specs.declared.entry.LogEntry.{LogEntry};
ghost use Rattle.source_state.specs.declared.look.Look.TheVariants as look;
ghost use Rattle.source_state.specs.Log.{rows_in, graded_in, fault_in, settling_in};
ghost use Rattle.source_pool.specs.Looks.{said_in};

/// What a log says of a need is there: the row at the depth among its rows, and the grade of the object among those that are known of
/// the list. Where it says nothing it has neither that row nor a row fault, and neither a settling nor a row of the object.
pub fn a_log_says_what_it_has()
    ensures row { (log : List LogEntry) (list depth : ℕ) (row : Row) → said_in log (need.Row list depth) ≡ Some (look.Row row)
        → slice_get (rows_in log) (depth - 1) ≡ Some row }
    ensures known { (log : List LogEntry) (list object grade : ℕ) → said_in log (need.Grade list object) ≡ Some (look.Grade grade)
        → Contains (rows_in log ++ graded_in log) (record { object = object; grade = grade }) }
    ensures no_row { (log : List LogEntry) (list depth : ℕ) → said_in log (need.Row list depth) ≡ None
        → (slice_get (rows_in log) (depth - 1) ≡ None) × (fault_in log ≡ None) }
    ensures no_grade { (log : List LogEntry) (list object : ℕ) → said_in log (need.Grade list object) ≡ None
        → (settling_in log object ≡ None) × (grade_among (rows_in log) object ≡ None) }
{}
