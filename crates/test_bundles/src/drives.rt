//! How `one` ends on an input in memory.

use bundle_calls::one;
use command_line::Status;
use std::alloc::Global;
use tk_io::{MemIntake, MemSink, Sink};

/// The bytes of each piece in which the input is given.
const PIECE: u32 = 50;

/// How `one` ends on this input, of which these calls fail, into a stream. None where there is no memory for the input.
pub fn one_into<K: Sink>(
    alloc: Global,
    input: &[u8],
    failing: &[u64],
    out: &mut K,
) -> Option<Status> {
    match MemIntake::make(alloc, input, PIECE, failing) {
        Ok(mut input) => Some(one(alloc, &mut input, out)),
        Err(_) => None,
    }
}

/// How `one` ends on this input, of which these calls fail, and what it writes. There is room for so many bytes. None where there is no memory.
pub fn one_of(
    alloc: Global,
    input: &[u8],
    failing: &[u64],
    room: u32,
) -> Option<(Status, MemSink)> {
    let Ok(mut out) = MemSink::make(alloc, room, &[]) else {
        return None;
    };
    match one_into(alloc, input, failing, &mut out) {
        Some(status) => Some((status, out)),
        None => {
            drop(out);
            None
        }
    }
}
