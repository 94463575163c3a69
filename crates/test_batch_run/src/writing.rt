//! The line of sums on a stream that fails.

use bulk_run::{BulkSums, write_sums};
use std::alloc::Global;
use tk_io::MemSink;

const SUMS: BulkSums = BulkSums {
    queries: 3,
    answered: 2,
    depth: 5,
    sorted: 10,
    random: 0,
    values: 18446744073709551615,
};

const LINE: &str =
    "bulk queries 3 answered 2 depth 5 sorted 10 random 0 values 18446744073709551615\n";

/// Whether the line of these sums, on a stream whose calls of these numbers fail, is written so far, and wholly or not. None without
/// memory.
fn is_written(alloc: Global, failing: &[u64], whole: bool, text: &str) -> Option<bool> {
    let mut out = MemSink::make(alloc, 1000, failing).ok()?;
    let is_done = write_sums(&mut out, &SUMS).is_ok();
    let is_so = is_done == whole && out.taken() == text.as_bytes();
    drop(out);
    Some(is_so)
}

/// Where the first write fails nothing is written; where a later one would, the whole line is.
#[test]
fn writes_a_line_at_once(rt: HostRuntime) {
    let are_so = [
        is_written(rt.alloc(), &[1], false, ""),
        is_written(rt.alloc(), &[2], true, LINE),
    ];
    assert_eq!(rt; are_so, [Some(true), Some(true)]);
}
