//! Whether `run` ends as it is to, and writes what it is to.

use super::told_drives::{Streams, end_into};
use command_line::Status;
use std::alloc::Global;
use std::sync::Wait;
use std::thread::Threads;
use test_mem_source::MemShelf;
use tk_io::MemSink;

/// Whether `run` ends so by these words, over a shelf and these streams, and writes these bytes.
pub(crate) fn ends_over<W: Threads + Wait + Sync>(
    rt: &W,
    alloc: Global,
    words: &[&str],
    shelf: &mut MemShelf,
    streams: &Streams<'_>,
    expected: (Status, &[u8]),
) -> bool {
    let Ok(mut out) = MemSink::make(alloc, streams.room, &[]) else {
        return false;
    };
    let ended = end_into(rt, alloc, words, shelf, streams, &mut out);
    let is_written = out.taken() == expected.1;
    drop(out);
    match ended {
        Some(status) => is_written && status == expected.0,
        None => false,
    }
}
