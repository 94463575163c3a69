//! The command `judge`: a certificate and what is told of it.

ghost use Rattle.std.specs.Prelude.{◌≡◌, ◌≤◌, ◌<◌, ◌^◌, ℕ, List, length};
ghost use Rattle.command_line.specs.Shelves.{Shelf};
ghost use Rattle.command_line.specs.Calls.{input_as, output_as, outside_of, call_at};
ghost use Rattle.command_line.specs.Ends.{EndsReading};
ghost use Rattle.bundle_calls.specs.Judge.{JudgeReplies, told_status};
ghost use Rattle.bundle_calls.specs.Outcomes.{SaysReply};

use cert_judge::{Judgement, judge_text, write_told};
use command_line::{Status, ended};
use std::alloc::Global;
use tk_io::{Intake, ReadError, Sink, read_text};
use topk_base::MAX_INPUT;

/// Reads a certificate from the input, and writes what is told of it: `fixes` where its accesses fix its answer, the table by which the
/// answer is beaten where they don't, or why it isn't judged.
///
/// - `Done`: the answer is fixed.
/// - `Partial`: it is beaten, or the certificate isn't judged.
/// - `ReadFault`, `LongInput`: a read failed, or the input has more bytes than the limit; nothing was written.
/// - `WriteFault`: a write failed; a front of the text was written.
/// - `Memory`: no memory was left; nothing was written.
///
/// No other status comes.
pub fn judge<R: Intake, K: Sink>(alloc: Global, input: &mut R, out: &mut K) -> Status
    ensures reads { R.faults input.old ≤ R.faults input.new }
    ensures writes { K.faults out.old ≤ K.faults out.new }
    ensures ends { (words : List (List ℕ)) (shelf : Shelf) → EndsReading JudgeReplies (call_at words
        (outside_of (input_as R.left R.faults input.old) (output_as K.held K.faults out.old) shelf)
        (outside_of (input_as R.left R.faults input.new) (output_as K.held K.faults out.new) shelf)) result }
{
    match read_text(alloc, input, MAX_INPUT) {
        Ok(text) => judge_bytes(alloc, &text, out),
        Err(ReadError::Failed) => Status::ReadFault,
        Err(ReadError::Long) => Status::LongInput,
        Err(ReadError::Memory) => Status::Memory,
    }
}

/// Writes what is told of these bytes, and ends so, or with a write fault; or nothing, where no memory was left.
fn judge_bytes<K: Sink>(alloc: Global, bytes: &[u8], out: &mut K) -> Status
    requires { length bytes.now < 2 ^ 40 }
    ensures counts { K.faults out.old ≤ K.faults out.new }
    ensures says { SaysReply JudgeReplies bytes.now (output_as K.held K.faults out.old) (output_as K.held K.faults out.new) result }
{
    match judge_text(alloc, bytes) {
        Ok(told) => {
            let status = told_status(&told);
            let written = write_told(out, &told);
            ended(written, status)
        }
        Err(_) => Status::Memory,
    }
}

/// How a call ends that wrote what is told: done exactly where the answer is fixed.
fn told_status(told: &Judgement) -> Status
    ensures { result ≡ told_status told.now }
{
    match told {
        Judgement::Fixes => Status::Done,
        _ => Status::Partial,
    }
}
