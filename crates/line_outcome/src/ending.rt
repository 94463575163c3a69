//! The outcome of a line, by what refused it or by how its query ended.

ghost use Rattle.std.specs.Prelude.{◌≡◌, IfOk};
ghost use Rattle.line_outcome.specs.LineOutcomes.{line_refused, IsEndedAs};

use super::outcome::ended_outcome;
use cert_text::{Outcome, Refusal, Versions};
use query_admission::LineOutcome;
use query_core::Ready;
use query_run::Ended;
use query_text::Query;
use std::alloc::Global;
use topk_base::Memory;

/// The outcome of a line that is refused before it runs, beside its query where that was read. Takes no memory.
pub fn line_refused(alloc: Global, refusal: Refusal, query: Option<Query>) -> LineOutcome
    ensures { result ≡ line_refused refusal query }
{
    LineOutcome {
        query,
        count: 0,
        versions: Versions::from_vec(Vec::new(alloc)),
        outcome: Outcome::Refused(refusal),
    }
}

/// The outcome of a line whose query was ready and ended so, or a lack of memory where it ended for that. Takes no memory.
pub fn line_ended(ready: Ready, ended: Ended) -> Result<LineOutcome, Memory>
    ensures { IfOk result (IsEndedAs ready ended) }
{
    let Some(outcome) = ended_outcome(ended) else {
        drop(ready);
        return Err(Memory);
    };
    Ok(LineOutcome {
        query: Some(ready.query),
        count: ready.count,
        versions: Versions::from_vec(ready.versions),
        outcome,
    })
}
