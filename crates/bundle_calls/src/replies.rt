//! What is replied to an input: what becomes of the query of the bundle that it is.

ghost use Rattle.std.specs.Prelude.{IfOk};
ghost use Rattle.bundle_text.specs.Bundle.{content, IsBundle};
ghost use Rattle.query_admission.specs.Admission.{IsAdmitted};
ghost use Rattle.bundle_calls.specs.Bundled.{bundle_line};
ghost use Rattle.bundle_calls.specs.Lists.{printed_lines};
ghost use Rattle.bundle_calls.specs.Outcomes.{BecomesOf, IsLineOf, IsReply, IsReplyTo};

use super::bundled::{Bundled, told_lists};
use super::drive::answer_over;
use bundle_text::{Bundle, BundleFault, GivenList, gather_bundle, read_bundle};
use cert_text::{Outcome, Refusal, Versions};
use query_admission::{Admitted, LineOutcome, admit};
use query_core::{DriveFault, Ready};
use std::alloc::Global;
use topk_base::Memory;

/// What is replied to an input.
#[derive(Drop)]
pub(crate) enum Reply {
    /// It is no bundle: with this line none begins.
    NoBundle { line: u64 },
    /// It is a bundle, and this became of its query line.
    Line(LineOutcome),
}

/// The number of a bundle's query line.
pub(crate) const QUERY_LINE: u64 = 1;

/// The reply to an input.
pub(crate) fn reply_to(alloc: Global, bytes: &[u8]) -> Result<Reply, Memory>
    ensures { IfOk result (IsReply bytes.now) }
{
    match read_bundle(alloc, bytes) {
        Ok(bundle) => Ok(Reply::Line(line_of(alloc, &bundle)?)),
        Err(BundleFault::BadBundle { line }) => Ok(Reply::NoBundle { line }),
        Err(BundleFault::Memory) => Err(Memory),
    }
}

/// The reply to lists that a caller has in memory, and a query.
pub(crate) fn reply_to_lists(
    alloc: Global,
    lists: &[GivenList],
    query: &[u8],
) -> Result<Reply, Memory>
    ensures { IfOk result (IsReplyTo (printed_lines lists.now query.now)) }
{
    match gather_bundle(alloc, lists, query) {
        Ok(bundle) => Ok(Reply::Line(line_of(alloc, &bundle)?)),
        Err(BundleFault::BadBundle { line }) => Ok(Reply::NoBundle { line }),
        Err(BundleFault::Memory) => Err(Memory),
    }
}

/// What becomes of a bundle's query line.
fn line_of(alloc: Global, bundle: &Bundle) -> Result<LineOutcome, Memory>
    requires { IsBundle (content bundle.now) }
    ensures { IfOk result (IsLineOf (content bundle.now)) }
{
    match admit(alloc, &Bundled::of(bundle), QUERY_LINE, &bundle.query) {
        Ok(Admitted::Ready(ready)) => run_ready(alloc, bundle, ready),
        Ok(Admitted::Refused { refusal, query }) => Ok(LineOutcome {
            query,
            count: 0,
            versions: Versions::from_vec(Vec::new(alloc)),
            outcome: Outcome::Refused(refusal),
        }),
        Err(_) => Err(Memory),
    }
}

/// What becomes of a query that is ready.
fn run_ready(alloc: Global, bundle: &Bundle, ready: Ready) -> Result<LineOutcome, Memory>
    requires bundle { IsBundle (content bundle.now) }
    requires admitted { IsAdmitted (bundle_line (content bundle.now)) ready }
    ensures { IfOk result (IsLineOf (content bundle.now)) }
{
    match outcome_of(alloc, bundle, &ready) {
        Ok(outcome) => Ok(LineOutcome {
            query: Some(ready.query),
            count: ready.count,
            versions: Versions::from_vec(ready.versions),
            outcome,
        }),
        Err(_) => {
            ready.query.let_go();
            Err(Memory)
        }
    }
}

/// The outcome of a query over the lists of a bundle.
fn outcome_of(alloc: Global, bundle: &Bundle, ready: &Ready) -> Result<Outcome, Memory>
    requires bundle { IsBundle (content bundle.now) }
    requires admitted { IsAdmitted (bundle_line (content bundle.now)) ready.now }
    ensures { IfOk result (BecomesOf (content bundle.now) ready.now) }
{
    let Ok(mut lists) = told_lists(alloc, bundle, &ready.sources) else {
        return Err(Memory);
    };
    match answer_over(alloc, ready, &mut lists) {
        Ok(answer) => Ok(Outcome::Answered(answer)),
        Err(DriveFault::RoomFull { room }) => Ok(Outcome::Refused(Refusal::RoomFull { room })),
        Err(DriveFault::Memory) => Err(Memory),
    }
}

/// Lets a reply go.
pub(crate) fn let_go(reply: Reply) {
    if let Reply::Line(line) = reply {
        let LineOutcome { query, outcome, .. } = line;
        if let Some(query) = query {
            query.let_go();
        }
        let_outcome_go(outcome);
    }
}

/// Lets an outcome go. What falls out of scope here is written out once, where `drop` would bring a function for each type under it.
fn let_outcome_go(_outcome: Outcome) {}
