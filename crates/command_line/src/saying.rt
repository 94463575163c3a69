//! What is written, and the status that it ends with.

ghost use Rattle.std.specs.Prelude.{◌≡◌, ◌≤◌, MatchResult};
ghost use Rattle.command_line.specs.Calls.{output_as};
ghost use Rattle.command_line.specs.Ends.{Says};

use super::status::Status;
use tk_io::{Failed, Sink, write_text};

/// Writes the text and ends so, or with a write fault.
pub fn say<K: Sink>(out: &mut K, text: &[u8], status: Status) -> Status
    ensures counts { K.faults out.old ≤ K.faults out.new }
    ensures says { Says (output_as K.held K.faults out.old) (output_as K.held K.faults out.new)
        text.now status result }
{
    let written = write_text(out, text);
    ended(written, status)
}

/// The status of what was written whole, or a write fault.
pub fn ended(written: Result<(), Failed>, status: Status) -> Status
    ensures { MatchResult written (λ _. result ≡ status) (λ _. result ≡ Status.WriteFault) }
{
    match written {
        Ok(()) => status,
        Err(_) => Status::WriteFault,
    }
}
