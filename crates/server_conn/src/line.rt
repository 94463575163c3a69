//! What is told of the query line of a request.

ghost use Rattle.std.specs.Prelude.{◌≡◌, IfOk, OnErr};
ghost use Rattle.std.specs.Result.{result_map_both};
ghost use Rattle.source_pool.specs.Passes.{IsPassOf};
ghost use Rattle.fetcher.specs.SlotTables.{MayServe};
ghost use Rattle.query_core.specs.Ready.{IsReady};
ghost use Rattle.query_run.specs.Advancing.{WaitsForNothing, HasSourcesIn, KnowsAll};
ghost use Rattle.query_run.specs.Ran.{RanSome};
ghost use Rattle.line_outcome.specs.LineOutcomes.{CanBeWritten};
ghost use Rattle.server_conn.specs.Entries.{view_in, MayAnswer};
ghost use Rattle.server_conn.specs.Becoming.{RunsTo, RunsShort, BecomesHere, is_answer, is_move, is_moved, shown};
ghost use Rattle.server_conn.specs.Connections.{Tells};

use super::opened::OpenedCatalog;
use super::text::line_text;
use cert_text::{Outcome, Refusal};
use fetcher::{Slot, SlotTable};
use keyed_lock::Pass;
use line_outcome::{line_ended, line_refused};
use machine_base::Answer;
use query_admission::{Admitted, LineOutcome, Memory};
use query_core::Ready;
use source_api::Source;
use source_pool::{Pool, PoolPass};
use std::alloc::Global;
use std::sync::Wait;
use workers::run_and_fetch;

/// What is told of a query line: its outcome in text, whether that is an answer, and whether it is the refusal of a query whose source moved.
#[derive(Drop)]
pub(crate) struct ToldLine {
    pub(crate) text: Vec<u8>,
    pub(crate) answered: bool,
    pub(crate) moved: bool,
}

/// Tells what becomes of a query line, or runs out of memory.
pub(crate) fn tell_line<W: Wait, S: Source>(
    rt: &W,
    alloc: Global,
    catalog: &OpenedCatalog,
    pool: &Pool,
    table: &SlotTable<S>,
    own: &mut Pass<Slot<S>>,
    pass: &mut PoolPass,
    line: &[u8],
) -> Result<ToldLine, wire::Refusal>
    requires serves { MayServe table.now pool.now own.old }
    requires fit { MayAnswer catalog.now pool.now pass.old }
    ensures served { own.new ≡ own.old }
    ensures fit { MayAnswer catalog.now pool.now pass.new }
    ensures knows { KnowsAll pass.old pass.new }
    ensures tells { Tells (view_in catalog.now) line.now pass.old pass.new (result_map_both shown (λ why. why) result) }
{
    match answer_line(rt, alloc, catalog, pool, table, own, pass, line) {
        Ok(outcome) => {
            let text = line_text(alloc, &outcome);
            let answered = is_answer(&outcome.outcome);
            let moved = is_moved(&outcome.outcome);
            let_line_go(outcome);
            match text {
                Ok(text) => Ok(ToldLine {
                    text,
                    answered,
                    moved,
                }),
                Err(_) => Err(wire::Refusal::NoMemory),
            }
        }
        Err(_) => Err(wire::Refusal::NoMemory),
    }
}

/// Lets what became of a line go.
fn let_line_go(line: LineOutcome) {
    let LineOutcome { query, outcome, .. } = line;
    if let Some(query) = query {
        query.let_go();
    }
    let_outcome_go(outcome);
}

/// Lets an outcome go.
fn let_outcome_go(outcome: Outcome) {
    match outcome {
        Outcome::Answered(
            Answer {
                items: _items,
                transcript,
            },
        ) => transcript.let_go(),
        Outcome::Refused(_) => {}
    }
}

/// Whether an outcome is an answer.
fn is_answer(outcome: &Outcome) -> bool
    ensures { result ≡ is_answer outcome.now }
{
    match outcome {
        Outcome::Answered(_) => true,
        Outcome::Refused(_) => false,
    }
}

/// Whether an outcome is the refusal of a query whose source moved.
fn is_moved(outcome: &Outcome) -> bool
    ensures { result ≡ is_moved outcome.now }
{
    match outcome {
        Outcome::Answered(_) => false,
        Outcome::Refused(refusal) => is_move(*refusal),
    }
}

/// Whether a query is refused since a source moved to another version.
fn is_move(refusal: Refusal) -> bool
    ensures { result ≡ is_move refusal }
{
    match refusal {
        Refusal::Moved { .. } => true,
        _ => false,
    }
}

/// What becomes of a query line, the first of its input: it is refused before it runs, or its query runs over the pool, fetches what it needs, and may
/// wait.
fn answer_line<W: Wait, S: Source>(
    rt: &W,
    alloc: Global,
    catalog: &OpenedCatalog,
    pool: &Pool,
    table: &SlotTable<S>,
    own: &mut Pass<Slot<S>>,
    pass: &mut PoolPass,
    line: &[u8],
) -> Result<LineOutcome, Memory>
    requires serves { MayServe table.now pool.now own.old }
    requires fit { MayAnswer catalog.now pool.now pass.old }
    ensures served { own.new ≡ own.old }
    ensures fit { MayAnswer catalog.now pool.now pass.new }
    ensures knows { KnowsAll pass.old pass.new }
    ensures becomes { IfOk result (BecomesHere (view_in catalog.now) 1 line.now pass.old pass.new) }
    ensures short { OnErr result (RunsShort (view_in catalog.now) 1 line.now pass.old pass.new) }
    ensures writable { IfOk result CanBeWritten }
{
    match catalog.admit(alloc, 1, line) {
        Ok(Admitted::Ready(ready)) => run_ready(rt, alloc, pool, table, own, pass, ready),
        Ok(Admitted::Refused { refusal, query }) => Ok(line_refused(alloc, refusal, query)),
        Err(_) => Err(Memory),
    }
}

/// What a query that is ready runs to.
fn run_ready<W: Wait, S: Source>(
    rt: &W,
    alloc: Global,
    pool: &Pool,
    table: &SlotTable<S>,
    own: &mut Pass<Slot<S>>,
    pass: &mut PoolPass,
    ready: Ready,
) -> Result<LineOutcome, Memory>
    requires serves { MayServe table.now pool.now own.old }
    requires ready { IsReady ready }
    requires own { IsPassOf pool.now pass.old }
    requires rests { WaitsForNothing pass.old }
    requires sources { HasSourcesIn pass.old ready }
    ensures served { own.new ≡ own.old }
    ensures own { IsPassOf pool.now pass.new }
    ensures rests { WaitsForNothing pass.new }
    ensures knows { KnowsAll pass.old pass.new }
    ensures runs { IfOk result (RunsTo ready pass.old pass.new) }
    ensures short { OnErr result (RanSome ready pass.old pass.new) }
    ensures writable { IfOk result CanBeWritten }
{
    let Ok(ended) = run_and_fetch(rt, alloc, pool, table, own, pass, &ready) else {
        ready.query.let_go();
        return Err(Memory);
    };
    line_ended(ready, ended)
}
