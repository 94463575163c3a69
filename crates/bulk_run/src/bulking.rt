//! The command `bulk`: made queries over a made table.

ghost use Rattle.std.specs.Prelude.{◌≡◌, ◌≤◌, ℕ, List, IfOk};
ghost use Rattle.command_line.specs.Bulking.{AreBulkOptions};
ghost use Rattle.bulk_run.specs.Sums.{bulk_sums};
ghost use Rattle.bulk_run.specs.Bulk.{input_of, bulk_text};
ghost use Rattle.command_line.specs.Shelves.{Shelf};
ghost use Rattle.command_line.specs.Calls.{Input, output_as, outside_of, call_at};
ghost use Rattle.command_line.specs.Ends.{EndsWriting};

use super::input::BulkInput;
use super::run::run_bulk;
use super::sums::BulkSums;
use super::writing::write_sums;
use command_line::{BulkOptions, Status, ended};
use std::alloc::Global;
use std::sync::Wait;
use std::thread::Threads;
use tk_io::Sink;
use topk_base::Memory;

/// Runs the made queries that the options ask for, and writes the sums over their answers.
pub fn bulk<W: Threads + Wait + Sync, K: Sink>(
    rt: &W,
    alloc: Global,
    options: BulkOptions,
    out: &mut K,
) -> Status
    requires { AreBulkOptions options }
    ensures counts { K.faults out.old ≤ K.faults out.new }
    ensures ends { (words : List (List ℕ)) (input : Input) (shelf : Shelf)
        → EndsWriting (bulk_text options) (call_at words (outside_of input (output_as K.held K.faults out.old) shelf)
        (outside_of input (output_as K.held K.faults out.new) shelf)) result }
{
    let Ok(sums) = sums_of(rt, alloc, options) else {
        return Status::Memory;
    };
    let written = write_sums(out, &sums);
    ended(written, Status::Done)
}

/// The sums over the answers of the made queries that the options ask for.
fn sums_of<W: Threads + Wait + Sync>(
    rt: &W,
    alloc: Global,
    options: BulkOptions,
) -> Result<BulkSums, Memory>
    requires { AreBulkOptions options }
    ensures { IfOk result (λ sums. sums ≡ bulk_sums (input_of options)) }
{
    let input = BulkInput {
        start: options.table.start,
        count: options.table.count,
        lists: options.table.lists,
        queries: options.queries,
    };
    match run_bulk(rt, alloc, input, options.settings) {
        Ok(sums) => Ok(sums),
        Err(_) => Err(Memory),
    }
}
