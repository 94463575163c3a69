//! Rows of inputs with the lines that they come to.

ghost use Rattle.topk_base.specs.Ranges.{AreSettings};
ghost use Rattle.bulk_run.specs.Sums.{IsInput};

use bulk_run::{BulkInput, run_bulk, write_sums};
use std::alloc::Global;
use std::sync::Wait;
use std::thread::Threads;
use tk_io::{MemSink, Sink};
use topk_base::Settings;

/// What is written of an input that is run with these settings. None where there is no memory.
fn written<R: Threads + Wait + Sync>(
    rt: &R,
    alloc: Global,
    input: BulkInput,
    settings: Settings,
) -> Option<MemSink>
    requires input { IsInput input }
    requires settings { AreSettings settings }
{
    let sums = run_bulk(rt, alloc, input, settings).ok()?;
    let mut out = MemSink::make(alloc, 1000, &[]).ok()?;
    match write_sums(&mut out, &sums) {
        Ok(()) => Some(out),
        Err(_) => {
            drop(out);
            None
        }
    }
}

/// Whether an input that is run with these settings comes to this line.
fn comes_to<R: Threads + Wait + Sync>(
    rt: &R,
    alloc: Global,
    input: BulkInput,
    settings: Settings,
    line: &str,
) -> bool
    requires input { IsInput input }
    requires settings { AreSettings settings }
{
    let Some(out) = written(rt, alloc, input, settings) else {
        return false;
    };
    let is_line = out.taken() == line.as_bytes();
    drop(out);
    is_line
}

/// One query after another, over pages of 100 rows.
const ALONE: Settings = Settings {
    workers: 1,
    page: 100,
    ahead: 0,
};

/// Eight queries at the same time, over pages of 50 rows, two of them read ahead.
const EIGHT: Settings = Settings {
    workers: 8,
    page: 50,
    ahead: 2,
};

/// As many workers as there may be, over pages of one row.
const MOST: Settings = Settings {
    workers: 32,
    page: 1,
    ahead: 2,
};

/// No query.
const NONE: BulkInput = BulkInput {
    start: 7,
    count: 100,
    lists: 3,
    queries: 0,
};

const NONE_LINE: &str = "bulk queries 0 answered 0 depth 0 sorted 0 random 0 values 0\n";

const ONE_ROW: BulkInput = BulkInput {
    start: 0,
    count: 1,
    lists: 1,
    queries: 1,
};

const ONE_ROW_LINE: &str = "bulk queries 1 answered 1 depth 1 sorted 1 random 0 values 951640\n";

const THREE_LISTS: BulkInput = BulkInput {
    start: 7,
    count: 100,
    lists: 3,
    queries: 6,
};

const THREE_LISTS_LINE: &str =
    "bulk queries 6 answered 6 depth 164 sorted 492 random 196 values 43899669\n";

/// Eight lists of five rows, so that five objects are the most that a query asks for.
const EIGHT_LISTS: BulkInput = BulkInput {
    start: 9,
    count: 5,
    lists: 8,
    queries: 12,
};

const EIGHT_LISTS_LINE: &str =
    "bulk queries 12 answered 12 depth 41 sorted 328 random 156 values 172080129\n";

/// Four lists of 200 rows, and queries whose k, expression, algorithm and costs differ.
const FOUR_LISTS: BulkInput = BulkInput {
    start: 7,
    count: 200,
    lists: 4,
    queries: 20,
};

const FOUR_LISTS_LINE: &str =
    "bulk queries 20 answered 20 depth 1126 sorted 4504 random 2800 values 358564775\n";

/// Each input comes to its line, whatever the settings are: no query, one row, six queries by one worker, by eight and by more workers
/// than there are queries, eight fetchers, and twenty queries by one worker and by eight.
#[test]
fn comes_to_its_line_by_any_settings(rt: HostRuntime) {
    let are_so = [
        comes_to(&rt, rt.alloc(), NONE, EIGHT, NONE_LINE),
        comes_to(&rt, rt.alloc(), ONE_ROW, MOST, ONE_ROW_LINE),
        comes_to(&rt, rt.alloc(), THREE_LISTS, ALONE, THREE_LISTS_LINE),
        comes_to(&rt, rt.alloc(), THREE_LISTS, EIGHT, THREE_LISTS_LINE),
        comes_to(&rt, rt.alloc(), THREE_LISTS, MOST, THREE_LISTS_LINE),
        comes_to(&rt, rt.alloc(), EIGHT_LISTS, EIGHT, EIGHT_LISTS_LINE),
        comes_to(&rt, rt.alloc(), FOUR_LISTS, ALONE, FOUR_LISTS_LINE),
        comes_to(&rt, rt.alloc(), FOUR_LISTS, EIGHT, FOUR_LISTS_LINE),
    ];
    assert_eq!(rt; are_so, [true; 8]);
}
