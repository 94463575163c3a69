//! The admission of query lines.

ghost use Rattle.std.specs.Prelude.{◌≡◌, ℕ, List, IfOk};
ghost use Rattle.catalog_open.specs.Views.{view_over, nothing_told};
ghost use Rattle.catalog_open.specs.Wanted.{AreRead};
ghost use Rattle.catalog_open.specs.Admissions.{AreAdmitted};

use super::Memory;
use super::catalogued::Catalogued;
use line_outcome::line_refused;
use query_admission::{Admitted, LineOutcome, ReadLine, Ready, admit_read};
use std::alloc::Global;

/// What query lines come to before they run.
#[derive(Drop)]
pub struct Admissions {
    /// The outcome of each line that is refused, in the order of the lines; None where its query is ready.
    pub outcomes: Vec<Option<LineOutcome>>,
    /// The queries that are ready, in the order of their lines.
    pub readies: Vec<Ready>,
}

/// What query lines that were read come to over the lists of a catalog before they run.
///
/// *Cost*: room for their outcomes, and `admit_read` for each line.
pub fn admit_all(
    alloc: Global,
    lists: &Catalogued<'_>,
    mut read: Vec<ReadLine>,
) -> Result<Admissions, Memory>
    requires { (lines : List (List ℕ)) × AreRead lines read.items }
    ensures { (lines : List (List ℕ)) → AreRead lines read.items
        → IfOk result (λ a. AreAdmitted (view_over lists.now.catalog.now lists.now.openings.now nothing_told) 1 lines a.outcomes.items a.readies.items) }
{
    // From the last line to the first, so that each is put before those that follow it.
    let mut outcomes = Vec::with_capacity(alloc, read.len())?;
    let mut readies = Vec::new(alloc);
    while let Some(line) = read.pop() {
        match admit_read(alloc, lists, line)? {
            Admitted::Refused { refusal, query } => {
                outcomes.push_reserved(Some(line_refused(alloc, refusal, query)));
            }
            Admitted::Ready(ready) => {
                readies.push(ready)?;
                outcomes.push_reserved(None);
            }
        }
    }
    outcomes.reverse();
    readies.reverse();
    Ok(Admissions { outcomes, readies })
}
