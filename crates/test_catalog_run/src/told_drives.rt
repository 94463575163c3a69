//! How `run` ends.

ghost use Rattle.std.specs.Prelude.{IfSome};
ghost use Rattle.topk_base.specs.Ranges.{AreSettings};

use catalog_run::run;
use command_line::{Command, RunOptions, Status, read_command};
use std::alloc::Global;
use std::sync::Wait;
use std::thread::Threads;
use test_mem_source::MemShelf;
use test_support::words_of;
use tk_io::{MemIntake, MemSink};

/// The input, the bytes of each piece in which it is given (at least one), the calls of it that fail, and for how many bytes of output there is room.
#[derive(Clone, Copy)]
pub(crate) struct Streams<'a> {
    pub(crate) input: &'a [u8],
    pub(crate) piece: u32,
    pub(crate) failing_reads: &'a [u64],
    pub(crate) room: u32,
}

/// The options of a run that these words give. None where they are no run, or where there is no memory.
fn options_of(alloc: Global, words: &[&str]) -> Option<RunOptions>
    ensures { IfSome result (λ options. AreSettings options.settings) }
{
    let Ok(words) = words_of(alloc, words) else {
        return None;
    };
    let command = read_command(alloc, &words);
    drop(words);
    match command {
        Ok(Command::Run(options)) => Some(options),
        _ => None,
    }
}

/// How `run` ends by these options, over a shelf and these streams. None without memory.
fn end_by<W: Threads + Wait + Sync>(
    rt: &W,
    alloc: Global,
    options: &RunOptions,
    shelf: &mut MemShelf,
    streams: &Streams<'_>,
    out: &mut MemSink,
) -> Option<Status>
    requires { AreSettings options.now.settings }
{
    let Ok(mut input) = MemIntake::make(
        alloc,
        streams.input,
        streams.piece.max(1),
        streams.failing_reads,
    ) else {
        return None;
    };
    let status = run(rt, alloc, options, shelf, &mut input, out);
    drop(input);
    Some(status)
}

/// The same by these words. None where they are no run, or where there is no memory.
pub(crate) fn end_into<W: Threads + Wait + Sync>(
    rt: &W,
    alloc: Global,
    words: &[&str],
    shelf: &mut MemShelf,
    streams: &Streams<'_>,
    out: &mut MemSink,
) -> Option<Status> {
    let Some(options) = options_of(alloc, words) else {
        return None;
    };
    let ended = end_by(rt, alloc, &options, shelf, streams, out);
    drop(options);
    ended
}
