//! The outcomes of query lines as one text, and the status that they come to.

ghost use Rattle.std.specs.Prelude.{◌≡◌, ◌≤◌, All};
ghost use Rattle.line_outcome.specs.LineOutcomes.{CanBeWritten};
ghost use Rattle.command_line.specs.Calls.{output_as};
ghost use Rattle.command_line.specs.Ends.{Says};
ghost use Rattle.catalog_run.specs.Running.{is_answer, run_status, outcomes_text};

use super::texts::put_outcomes;
use cert_text::Outcome;
use command_line::{Status, ended};
use query_admission::LineOutcome;
use std::alloc::Global;
use std::thread::Threads;
use tk_io::{Sink, Writer};

/// Writes the outcomes of lines, one after another, and ends done exactly where each is an answer, or
/// with a write fault. Where there are several workers, long texts are made by as many threads before they are written.
pub(crate) fn write_outcomes<W: Threads + Sync, K: Sink>(
    rt: &W,
    alloc: Global,
    out: &mut K,
    outcomes: &[LineOutcome],
    workers: u32,
) -> Status
    requires { All CanBeWritten outcomes.now }
    ensures counts { K.faults out.old ≤ K.faults out.new }
    ensures says { Says (output_as K.held K.faults out.old) (output_as K.held K.faults out.new)
        (outcomes_text 1 outcomes.now) (run_status outcomes.now) result }
{
    let mut writer = Writer::make(out);
    put_outcomes(rt, alloc, &mut writer, outcomes, workers);
    let written = writer.end();
    ended(written, run_status(outcomes))
}

/// Whether an outcome is an answer.
fn is_answer(outcome: &Outcome) -> bool
    ensures { result ≡ is_answer outcome.now }
{
    match outcome {
        Outcome::Answered(_) => true,
        Outcome::Refused(_) => false,
    }
}

/// The status of the outcomes of lines: done exactly where each is an answer.
fn run_status(outcomes: &[LineOutcome]) -> Status
    ensures { result ≡ run_status outcomes.now }
{
    if outcomes.iter().all(|line| is_answer(&line.outcome)) {
        return Status::Done;
    }
    Status::Partial
}
