//! The command `one` over lists that a caller has in memory.

ghost use Rattle.std.specs.Prelude.{◌≤◌};
ghost use Rattle.command_line.specs.Calls.{output_as};
ghost use Rattle.bundle_calls.specs.Lists.{RepliesToLists, ListsAreRepliedToAsPrinted};
ghost use Rattle.bundle_calls.specs.Outcomes.{SaysSome};

use super::answering::write_reply;
use super::replies::{let_go, reply_to_lists};
use bundle_text::GivenList;
use command_line::Status;
use std::alloc::Global;
use tk_io::Sink;

/// Answers a query over lists that a caller has in memory, each from the top down, and writes what `one` writes of the bundle that they
/// print as. No text of a bundle is made, so that it has no limit of bytes.
///
/// - `Done`: the query was answered.
/// - `Partial`: the query line was refused.
/// - `BadInput`: the lists and the query make no bundle.
/// - `WriteFault`: a write failed; a front of the text was written.
/// - `Memory`: no memory was left; nothing was written.
///
/// No other status comes.
pub fn answer_lists<K: Sink>(
    alloc: Global,
    lists: &[GivenList],
    query: &[u8],
    out: &mut K,
) -> Status
    ensures counts { K.faults out.old ≤ K.faults out.new }
    ensures says { SaysSome (RepliesToLists lists.now query.now) (output_as K.held K.faults out.old) (output_as K.held K.faults out.new) result }
{
    match reply_to_lists(alloc, lists, query) {
        Ok(reply) => {
            let status = write_reply(out, &reply);
            let_go(reply);
            status
        }
        Err(_) => Status::Memory,
    }
}

/// A law: lists and a query are replied to as the text is that they print as.
pub fn lists_are_replied_to_as_printed()
    ensures { ListsAreRepliedToAsPrinted }
{}
