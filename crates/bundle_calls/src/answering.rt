//! The command `one`: a bundle, and what is written of its query.

ghost use Rattle.std.specs.Prelude.{◌≡◌, ◌≤◌, ℕ, List};
ghost use Rattle.cert_text.specs.Outcome.{IsOutcome, outcome_text};
ghost use Rattle.command_line.specs.Shelves.{Shelf};
ghost use Rattle.command_line.specs.Calls.{input_as, output_as, outside_of, call_at};
ghost use Rattle.command_line.specs.Ends.{EndsReading, Says};
ghost use Rattle.bundle_calls.specs.Reply.{Replies, bundle_refused_text, outcome_status};
ghost use Rattle.bundle_calls.specs.Outcomes.{reply_text, reply_status, IsWritable, SaysReply};

use super::replies::{Reply, let_go, reply_to};
use cert_text::{Outcome, write_outcome};
use command_line::{Status, ended};
use query_admission::LineOutcome;
use std::alloc::Global;
use tk_io::{Intake, Put, ReadError, Sink, Writer, read_text};
use topk_base::MAX_INPUT;

/// Reads a bundle from the input, answers its query over the lists that the query names, and writes the certificate of the answer or the
/// line of a refusal: `refused bundle LINE` where the input is no bundle, else the first refusal that holds of the query line, which is
/// line 1.
///
/// - `Done`: the query was answered.
/// - `Partial`: the query line was refused.
/// - `BadInput`: the input is no bundle.
/// - `ReadFault`, `LongInput`: a read failed, or the input has more bytes than the limit; nothing was written.
/// - `WriteFault`: a write failed; a front of the text was written.
/// - `Memory`: no memory was left; nothing was written.
///
/// No other status comes.
pub fn one<R: Intake, K: Sink>(alloc: Global, input: &mut R, out: &mut K) -> Status
    ensures reads { R.faults input.old ≤ R.faults input.new }
    ensures writes { K.faults out.old ≤ K.faults out.new }
    ensures ends { (words : List (List ℕ)) (shelf : Shelf) → EndsReading Replies (call_at words
        (outside_of (input_as R.left R.faults input.old) (output_as K.held K.faults out.old) shelf)
        (outside_of (input_as R.left R.faults input.new) (output_as K.held K.faults out.new) shelf)) result }
{
    match read_text(alloc, input, MAX_INPUT) {
        Ok(text) => answer_text(alloc, &text, out),
        Err(ReadError::Failed) => Status::ReadFault,
        Err(ReadError::Long) => Status::LongInput,
        Err(ReadError::Memory) => Status::Memory,
    }
}

/// Writes the reply to these bytes and ends so, or with a write fault; or nothing, where no memory was left.
fn answer_text<K: Sink>(alloc: Global, bytes: &[u8], out: &mut K) -> Status
    ensures counts { K.faults out.old ≤ K.faults out.new }
    ensures says { SaysReply Replies bytes.now (output_as K.held K.faults out.old) (output_as K.held K.faults out.new) result }
{
    match reply_to(alloc, bytes) {
        Ok(reply) => {
            let status = write_reply(out, &reply);
            let_go(reply);
            status
        }
        Err(_) => Status::Memory,
    }
}

/// Writes a reply and ends so, or with a write fault.
pub(crate) fn write_reply<K: Sink>(out: &mut K, reply: &Reply) -> Status
    requires { IsWritable reply.now }
    ensures counts { K.faults out.old ≤ K.faults out.new }
    ensures says { Says (output_as K.held K.faults out.old) (output_as K.held K.faults out.new)
        (reply_text reply.now) (reply_status reply.now) result }
{
    match reply {
        Reply::NoBundle { line } => refuse_bundle(out, *line),
        Reply::Line(line) => write_line(out, line),
    }
}

/// Writes with which line of the input no bundle begins, and ends so, or with a write fault.
fn refuse_bundle<K: Sink>(out: &mut K, line: u64) -> Status
    ensures counts { K.faults out.old ≤ K.faults out.new }
    ensures says { Says (output_as K.held K.faults out.old) (output_as K.held K.faults out.new)
        (bundle_refused_text line) Status.BadInput result }
{
    let mut writer = Writer::make(out);
    writer.put(b"refused bundle ");
    writer.put_number(line);
    writer.put(b"\n");
    let written = writer.end();
    ended(written, Status::BadInput)
}

/// Writes what became of the query line, which is line 1, and ends so, or with a write fault.
fn write_line<K: Sink>(out: &mut K, line: &LineOutcome) -> Status
    requires { IsOutcome line.now.query line.now.versions line.now.outcome }
    ensures counts { K.faults out.old ≤ K.faults out.new }
    ensures says { Says (output_as K.held K.faults out.old) (output_as K.held K.faults out.new)
        (outcome_text 1 line.now.query line.now.count line.now.versions line.now.outcome)
        (outcome_status line.now.outcome) result }
{
    let status = outcome_status(&line.outcome);
    let query = line.query.as_ref();
    let written = write_outcome(
        out,
        1,
        query,
        line.count,
        line.versions.as_slice(),
        &line.outcome,
    );
    ended(written, status)
}

/// How a call ends that wrote an outcome: done exactly where the query was answered.
fn outcome_status(outcome: &Outcome) -> Status
    ensures { result ≡ outcome_status outcome.now }
{
    match outcome {
        Outcome::Answered(_) => Status::Done,
        Outcome::Refused(_) => Status::Partial,
    }
}
