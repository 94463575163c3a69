//! What runs of query lines write.

ghost use Rattle.std.specs.Prelude.{All, IfSome};
ghost use Rattle.line_outcome.specs.LineOutcomes.{CanBeWritten};
ghost use Rattle.topk_base.specs.Ranges.{AreSettings};

use catalog_run::{LineOutcome, Settings, let_go, run_lines};
use catalog_text::{Catalog, read_catalog};
use cert_text::put_outcome;
use std::alloc::Global;
use std::sync::Wait;
use std::thread::Threads;
use test_mem_source::MemShelf;
use tk_io::{MemSink, Writer};

/// Settings of so many workers, rows in a page and pages that are read ahead, or the nearest that are in range.
pub fn settings_of(workers: u32, page: u32, ahead: u32) -> Settings
    ensures { AreSettings result }
{
    Settings {
        workers: workers.max(1).min(32),
        page: page.max(1).min(10_000),
        ahead: ahead.min(100),
    }
}

/// The outcomes of a run of lines over a shelf and a catalog.
fn outcomes_by<W: Threads + Wait + Sync>(
    rt: &W,
    alloc: Global,
    shelf: &mut MemShelf,
    catalog: &Catalog,
    lines: &[&[u8]],
    settings: Settings,
) -> Option<Vec<LineOutcome>>
    requires { AreSettings settings }
    ensures { IfSome result (λ outcomes. All CanBeWritten outcomes.items) }
{
    match run_lines(rt, alloc, shelf, catalog, lines, settings) {
        Ok(outcomes) => Some(outcomes),
        Err(_) => None,
    }
}

/// The outcomes of a run of lines over a shelf and the catalog of a text.
fn outcomes_of<W: Threads + Wait + Sync>(
    rt: &W,
    alloc: Global,
    shelf: &mut MemShelf,
    catalog: &[u8],
    lines: &[&[u8]],
    settings: Settings,
) -> Option<Vec<LineOutcome>>
    requires { AreSettings settings }
    ensures { IfSome result (λ outcomes. All CanBeWritten outcomes.items) }
{
    let Ok(catalog) = read_catalog(alloc, catalog) else {
        return None;
    };
    let outcomes = outcomes_by(rt, alloc, shelf, &catalog, lines, settings);
    drop(catalog);
    outcomes
}

/// Writes outcomes, whose lines are numbered from 1. Whether there was room.
fn write_all(out: &mut MemSink, outcomes: &[LineOutcome]) -> bool
    requires { All CanBeWritten outcomes.now }
{
    let mut writer = Writer::make(out);
    let mut number: u64 = 0;
    for outcome in outcomes {
        number = number.saturating_add(1);
        put_outcome(
            &mut writer,
            number,
            outcome.query.as_ref(),
            outcome.count,
            outcome.versions.as_slice(),
            &outcome.outcome,
        );
    }
    writer.end().is_ok()
}

/// Runs lines over a shelf and the catalog of a text, and writes their outcomes. False where the text is no catalog, or where there is no
/// memory or no room for what is written.
pub fn run_into<W: Threads + Wait + Sync>(
    rt: &W,
    alloc: Global,
    shelf: &mut MemShelf,
    catalog: &[u8],
    lines: &[&[u8]],
    settings: Settings,
    out: &mut MemSink,
) -> bool
    requires { AreSettings settings }
{
    let Some(outcomes) = outcomes_of(rt, alloc, shelf, catalog, lines, settings) else {
        return false;
    };
    let wrote = write_all(out, &outcomes);
    let_go(outcomes);
    wrote
}
