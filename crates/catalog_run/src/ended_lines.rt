//! The outcomes of lines, once the queries that were ready have ended.

ghost use Rattle.std.specs.Prelude.{◌≡◌, ℕ, List, IfOk, length, is_none};
ghost use Rattle.std.specs.List.{AllZip, count_by};
ghost use Rattle.query_admission.specs.View.{View};
ghost use Rattle.query_run.specs.declared.running_query.RunningQuery.{RunningQuery};
ghost use Rattle.query_run.specs.Made.{IsOf};
ghost use Rattle.query_run.specs.Endings.{EndsAs, IsRight};
ghost use Rattle.catalog_open.specs.Admissions.{AreAdmitted};
ghost use Rattle.catalog_run.specs.Runs.{AreOutcomes};

use super::Memory;
use catalog_open::Admissions;
use line_outcome::line_ended;
use query_admission::LineOutcome;
use query_run::Ended;
use std::alloc::Global;

/// Lets the outcomes of lines go. Who owns some lets them go by this call, so that it is proved once.
pub fn let_go(outcomes: Vec<LineOutcome>) {
    drop(outcomes);
}

/// The outcomes of lines that were admitted, in their order, once the queries that were ready have ended so.
pub(crate) fn end_lines(
    alloc: Global,
    admissions: Admissions,
    mut endings: Vec<Ended>,
) -> Result<Vec<LineOutcome>, Memory>
    requires waiting { count_by is_none admissions.outcomes.items ≡ length admissions.readies.items }
    requires endings { length endings.items ≡ length admissions.readies.items }
    ensures { (view : View) → (lines : List (List ℕ)) → (queries : List RunningQuery)
        → AreAdmitted view 1 lines admissions.outcomes.items admissions.readies.items → AllZip IsOf admissions.readies.items queries
        → AllZip EndsAs queries endings.items → AllZip IsRight admissions.readies.items endings.items
        → IfOk result (λ outcomes. AreOutcomes view queries 1 lines outcomes.items) }
{
    let Admissions {
        outcomes: mut lines,
        mut readies,
    } = admissions;
    // From the last line to the first: the query of one that has no outcome yet stands last then.
    let mut outcomes = Vec::with_capacity(alloc, lines.len())?;
    while let Some(line) = lines.pop() {
        match line {
            Some(outcome) => outcomes.push_reserved(outcome),
            None => {
                let ready = readies.pop().unwrap();
                let ended = endings.pop().unwrap();
                outcomes.push_reserved(line_ended(ready, ended)?);
            }
        }
    }
    outcomes.reverse();
    Ok(outcomes)
}
