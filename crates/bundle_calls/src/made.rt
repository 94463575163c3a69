//! The command `make`: a made table.

ghost use Rattle.std.specs.Prelude.{◌≤◌, ℕ, List};
ghost use Rattle.command_line.specs.Shelves.{Shelf};
ghost use Rattle.command_line.specs.Calls.{Input, output_as, outside_of, call_at};
ghost use Rattle.command_line.specs.Ends.{EndsWriting};
ghost use Rattle.bundle_calls.specs.Made.{made_text};

use bundle_text::write_table;
use command_line::{Status, ended};
use made_inputs::make_table;
use std::alloc::Global;
use tk_io::Sink;

/// Writes the table of so many lists over `count` objects that is made from the number `start`, as the sections of a bundle, whose lists
/// are named `l1`, `l2` and so on. The input is left as it was.
///
/// - `Done`: the table was written.
/// - `WriteFault`: a write failed; a front of the text was written.
/// - `Memory`: no memory was left; nothing was written.
///
/// No other status comes.
pub fn make<K: Sink>(alloc: Global, start: u64, count: u32, lists: u8, out: &mut K) -> Status
    ensures counts { K.faults out.old ≤ K.faults out.new }
    ensures ends { (words : List (List ℕ)) (input : Input) (shelf : Shelf)
        → EndsWriting (made_text start count lists) (call_at words (outside_of input (output_as K.held K.faults out.old) shelf)
        (outside_of input (output_as K.held K.faults out.new) shelf)) result }
{
    let Ok(table) = make_table(alloc, start, count, lists) else {
        return Status::Memory;
    };
    let written = write_table(out, &table);
    ended(written, Status::Done)
}
