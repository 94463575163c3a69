//! A command over the bytes that a caller gives, and its text in the caller's buffer.

ghost use Rattle.std.specs.Prelude.{◌≡◌, ◌≤◌, ◌++◌, length, drop};
ghost use Rattle.bundle_calls.specs.Reply.{Replies};
ghost use Rattle.bundle_calls.specs.Judge.{JudgeReplies};
ghost use Rattle.bundle_calls.specs.Lists.{RepliesToLists};
ghost use Rattle.topk_c.specs.Calls.{Ends, EndsReplying, Tells};
ghost use Rattle.topk_c.specs.Telling.{told_status, told_text};

use super::given_text::GivenText;
use super::kept_text::KeptText;
use bundle_calls::{answer_lists, judge, one};
use bundle_text::GivenList;
use command_line::Status;
use std::alloc::Global;

/// Answers the query of a bundle, and tells what `one` writes of it.
pub(crate) fn answer(alloc: Global, bundle: &[u8], out: &mut [u8], written: &mut usize) -> Status
    ensures { Ends Replies bundle.now out.old out.new written.new result }
{
    let mut input = GivenText::of(bundle);
    let mut text = KeptText::make(alloc);
    let status = one(alloc, &mut input, &mut text);
    *written = tell(status, text.bytes(), out);
    told_status(status)
}

/// Answers a query over lists in memory, and tells what `one` writes of the bundle that they print as.
pub(crate) fn answer_rows(
    alloc: Global,
    lists: &[GivenList],
    query: &[u8],
    out: &mut [u8],
    written: &mut usize,
) -> Status
    ensures { EndsReplying (RepliesToLists lists.now query.now) out.old out.new written.new result }
{
    let mut text = KeptText::make(alloc);
    let status = answer_lists(alloc, lists, query, &mut text);
    *written = tell(status, text.bytes(), out);
    told_status(status)
}

/// Judges a certificate, and tells what `judge` writes of it.
pub(crate) fn judge_certificate(
    alloc: Global,
    certificate: &[u8],
    out: &mut [u8],
    written: &mut usize,
) -> Status
    ensures { Ends JudgeReplies certificate.now out.old out.new written.new result }
{
    let mut input = GivenText::of(certificate);
    let mut text = KeptText::make(alloc);
    let status = judge(alloc, &mut input, &mut text);
    *written = tell(status, text.bytes(), out);
    told_status(status)
}

/// How a call ends for the caller: a text that couldn't be kept is lack of memory.
fn told_status(status: Status) -> Status
    ensures { result ≡ told_status status }
{
    match status {
        Status::WriteFault => Status::Memory,
        status => status,
    }
}

/// Tells the caller what a command wrote that ended so, and how long it is. Of a text that couldn't be kept nothing is told.
fn tell(status: Status, text: &[u8], out: &mut [u8]) -> usize
    ensures { Tells (told_text status text.now) out.old out.new result }
{
    match status {
        Status::WriteFault => put(b"", out),
        _ => put(text, out),
    }
}

/// Puts a text at the front of a buffer that has room for it, and says how long it is.
fn put(text: &[u8], out: &mut [u8]) -> usize
    ensures { Tells text.now out.old out.new result }
{
    if text.len() <= out.len() {
        put_whole(text, out);
    }
    text.len()
}

/// Copies a text over the front of a buffer.
fn put_whole(text: &[u8], out: &mut [u8])
    requires { length text.now ≤ length out.old }
    ensures { out.new ≡ text.now ++ drop (length text.now) out.old }
{
    let count = text.len();
    out[..count].copy_from_slice(text);
}
