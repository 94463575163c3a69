//! The commands `one` and `judge` as a C library: text in, text out, and the query of lists in memory.
//!
//! `c/topk.h` has the same calls as C sees them, with what a caller owes.
#![tactic(auto)]

ghost use Rattle.bundle_calls.specs.Reply.{Replies};
ghost use Rattle.bundle_calls.specs.Judge.{JudgeReplies};
ghost use Rattle.bundle_calls.specs.Lists.{RepliesToLists};
ghost use Rattle.topk_c.specs.Calls.{EndsWith, EndsReplyingWith};

mod calls;
mod given_text;
mod kept_text;

use bundle_text::GivenList;
use calls::{answer, answer_rows, judge_certificate};
use std::alloc::Global;

/// Answers the query of a bundle. `written` gets the length of the text that the command `one` writes of it; where `out` has
/// room for it, `out` begins with the text, and else `out` is as it was. Gives the exit status of `one`:
///
/// - 0: the query was answered, and the text is its certificate.
/// - 1: the query line was refused, and the text says why.
/// - 10: the bytes are no bundle, and the text names the first line with which none begins.
/// - 9: the bytes are more than the limit. The text is empty.
/// - 8: memory was refused. The text is empty.
#[unsafe(no_mangle)]
pub extern "C" fn topk_answer(
    alloc: Global,
    bundle: &[u8],
    out: &mut [u8],
    written: &mut usize,
) -> u8
    ensures { EndsWith Replies bundle.now out.old out.new written.new result }
{
    answer(alloc, bundle, out, written).code()
}

/// Answers a query over lists in memory, each with its rows from the top down. `written` gets the length of the text that the command `one`
/// writes of the bundle's text that the lists and the query print as; where `out` has room for it, `out` begins with the text, and
/// else `out` is as it was. No such text is made, so that its length has no limit. Gives the exit status of `one`:
///
/// - 0: the query was answered, and the text is its certificate.
/// - 1: the query line was refused, and the text says why.
/// - 10: the lists and the query make no bundle, and the text names the first line, of those that they print as, with which none begins.
/// - 8: memory was refused. The text is empty.
#[unsafe(no_mangle)]
pub extern "C" fn topk_answer_rows(
    alloc: Global,
    lists: &[GivenList],
    query: &[u8],
    out: &mut [u8],
    written: &mut usize,
) -> u8
    ensures { EndsReplyingWith (RepliesToLists lists.now query.now) out.old out.new written.new result }
{
    answer_rows(alloc, lists, query, out, written).code()
}

/// Judges a certificate. `written` gets the length of the text that the command `judge` writes of it; where `out` has room for
/// it, `out` begins with the text, and else `out` is as it was. Gives the exit status of `judge`:
///
/// - 0: its accesses fix its answer, and the text is `fixes`.
/// - 1: the answer is beaten, and the text has the table that beats it; or the bytes aren't judged, and the text says why.
/// - 9: the bytes are more than the limit. The text is empty.
/// - 8: memory was refused. The text is empty.
#[unsafe(no_mangle)]
pub extern "C" fn topk_judge(
    alloc: Global,
    certificate: &[u8],
    out: &mut [u8],
    written: &mut usize,
) -> u8
    ensures { EndsWith JudgeReplies certificate.now out.old out.new written.new result }
{
    judge_certificate(alloc, certificate, out, written).code()
}
