//! Query lines over a catalog.

ghost use Rattle.std.specs.Prelude.{◌≡◌, ◌≤◌, [], ℕ, List, Option, All, length, map, IfOk, OnErr, OnOk};
ghost use Rattle.ranked_list.specs.declared.row.Row.{Row};
ghost use Rattle.source_api.specs.Places.{SameAtEach};
ghost use Rattle.topk_base.specs.Ranges.{AreSettings};
ghost use Rattle.catalog_open.specs.Views.{view_over, nothing_told};
ghost use Rattle.catalog_open.specs.Wanted.{AreRead, IsWanted};
ghost use Rattle.catalog_open.specs.Slots.{IsIdle, of_slot, sources_of};
ghost use Rattle.catalog_open.specs.Takings.{AreReady, seen};
ghost use Rattle.catalog_open.specs.Openings.{AreOpened, Counted, GivesNothing, KeepsOthers, Moves, Used, no_sources};
ghost use Rattle.catalog_run.specs.Runs.{AsksWantedAtMostOnce, AsksWantedOnce, IsRun, RanOver};
ghost use Rattle.catalog_run.specs.Cut.{CutOver, RanOutOfMemory};
ghost use Rattle.line_outcome.specs.LineOutcomes.{CanBeWritten};

use super::Memory;
use super::ended_lines::end_lines;
use batch_run::{Settings, run_all};
use catalog_open::{
    Catalogued, OpenSources, admit_all, let_lines_go, mark_wanted, open_wanted, put_back_all,
    read_lines,
};
use catalog_text::Catalog;
use query_admission::{LineOutcome, ReadLine};
use source_api::{Shelf, Source};
use std::alloc::Global;
use std::sync::Wait;
use std::thread::Threads;

/// Answers query lines, numbered from 1, over the lists of a catalog whose sources are taken of a shelf.
///
/// The lines are read, and the sources that they want are opened in the order of the catalog, each being
/// asked of the shelf once: those of the lists that a line names which nothing refuses before its lists are
/// opened. A source that fails at this, or is answered by garbled data, isn't open. Then the lines are
/// admitted, and the queries that are ready run at the same time, over one state of each source: as many
/// workers as the settings say, and beside them one fetcher a source. A call may wait for ever. At last the
/// sources are put back, where memory is refused too: each source that was taken was put back once. What was read of them by then is
/// within the bounds of a run that ends.
///
/// *Cost*: `read_lines`, `mark_wanted`, `open_wanted`, `admit_all`, `run_all`, room for the outcomes, `put_back_all`.
pub fn run_lines<W: Threads + Wait + Sync, H: Shelf>(
    rt: &W,
    alloc: Global,
    shelf: &mut H,
    catalog: &Catalog,
    lines: &[&[u8]],
    settings: Settings,
) -> Result<Vec<LineOutcome>, Memory>
    requires { AreSettings settings }
    ensures texts { SameAtEach (H.texts shelf.old) (H.texts shelf.new) }
    ensures lists { SameAtEach (H.lists shelf.old) (H.lists shelf.new) }
    ensures versions { SameAtEach (H.versions shelf.old) (H.versions shelf.new) }
    ensures others { KeepsOthers catalog.now (IsWanted catalog.now (map (λ line. line.now) lines.now)) (H.at shelf.old) (H.at shelf.new) }
    ensures moves { (used : List Used) × Moves used (H.at shelf.old) (H.at shelf.new) }
    ensures few { AsksWantedAtMostOnce catalog.now (map (λ line. line.now) lines.now) (H.at shelf.old) (H.at shelf.new) }
    ensures run { IfOk result (λ outcomes. IsRun (record {
      catalog = catalog.now;
      lines = map (λ line. line.now) lines.now;
      lists = H.lists shelf.old;
      versions = H.versions shelf.old;
      settings = settings;
      before = H.at shelf.old;
      after = H.at shelf.new;
    }) outcomes.items) }
    ensures cut { OnErr result (RanOutOfMemory (record {
      catalog = catalog.now;
      lines = map (λ line. line.now) lines.now;
      lists = H.lists shelf.old;
      versions = H.versions shelf.old;
      settings = settings;
      before = H.at shelf.old;
      after = H.at shelf.new;
    })) }
    ensures writable { IfOk result (λ outcomes. All CanBeWritten outcomes.items) }
{
    let Ok(read) = read_lines(alloc, lines) else {
        return Err(Memory);
    };
    let Ok(mut sources) = open_lines(rt, alloc, shelf, catalog, &read) else {
        let_lines_go(read);
        return Err(Memory);
    };
    let result = run_opened(rt, alloc, catalog, &mut sources, read, settings);
    put_back_all(shelf, catalog, sources);
    result
}

/// Opens the sources that lines want which were read. Where memory is refused none is open.
fn open_lines<W: Threads + Sync, H: Shelf>(
    rt: &W,
    alloc: Global,
    shelf: &mut H,
    catalog: &Catalog,
    read: &[ReadLine],
) -> Result<OpenSources<H::Item>, Memory>
    requires { (lines : List (List ℕ)) × AreRead lines read.now }
    ensures texts { SameAtEach (H.texts shelf.old) (H.texts shelf.new) }
    ensures lists { SameAtEach (H.lists shelf.old) (H.lists shelf.new) }
    ensures versions { SameAtEach (H.versions shelf.old) (H.versions shelf.new) }
    ensures idle { (place : List ℕ) → GivesNothing (H.at shelf.old place) (H.at shelf.new place) }
    ensures few { (lines : List (List ℕ)) → AreRead lines read.now → AsksWantedAtMostOnce catalog.now lines (H.at shelf.old) (H.at shelf.new) }
    ensures once { (lines : List (List ℕ)) → AreRead lines read.now
        → OnOk result (AsksWantedOnce catalog.now lines (H.at shelf.old) (H.at shelf.new)) }
    ensures ready { IfOk result (AreReady (seen H.Item.list H.Item.states H.Item.at_hand H.Item.counts H.Item.calls) catalog.now
        (H.knows shelf.new)) }
    ensures opened { (lines : List (List ℕ)) → AreRead lines read.now → IfOk result (λ sources. AreOpened (H.lists shelf.old) (H.versions shelf.old)
        catalog.now (IsWanted catalog.now lines) (H.at shelf.old) (H.at shelf.new) sources.openings.items
        (sources_of H.Item.list H.Item.at_hand sources)) }
    ensures closed { (lines : List (List ℕ)) → AreRead lines read.now → OnErr result (AreOpened (H.lists shelf.old) (H.versions shelf.old)
        catalog.now (IsWanted catalog.now lines) (H.at shelf.old) (H.at shelf.new) [] no_sources) }
{
    let Ok(marks) = mark_wanted(alloc, catalog, read) else {
        return Err(Memory);
    };
    let sources = open_wanted(rt, alloc, shelf, catalog, &marks);
    drop(marks);
    sources
}

/// Admits the lines that were read over the open sources, and runs the queries that are ready.
fn run_opened<W: Threads + Wait + Sync, S: Source>(
    rt: &W,
    alloc: Global,
    catalog: &Catalog,
    sources: &mut OpenSources<S>,
    read: Vec<ReadLine>,
    settings: Settings,
) -> Result<Vec<LineOutcome>, Memory>
    requires settings { AreSettings settings }
    requires opened { (lists : List ℕ → Option (List Row)) × (versions : List ℕ → Option ℕ) × (lines : List (List ℕ)) × (before : Counted)
        × (now : Counted) × AreOpened lists versions catalog.now (IsWanted catalog.now lines) before now sources.old.openings.items
        (sources_of S.list S.at_hand sources.old) }
    requires read { (lines : List (List ℕ)) × AreRead lines read.items }
    requires free { All IsIdle sources.old.slots.items }
    requires few { length sources.old.slots.items ≤ length catalog.now }
    ensures same { sources_of S.list S.at_hand sources.new ≡ sources_of S.list S.at_hand sources.old }
    ensures free { All IsIdle sources.new.slots.items }
    ensures ran { (lines : List (List ℕ)) → AreRead lines read.items → IfOk result (λ outcomes. RanOver settings
        (sources_of S.list S.at_hand sources.old) (map (of_slot S.counts) sources.old.slots.items) (map (of_slot S.counts) sources.new.slots.items)
        (map (of_slot S.calls) sources.old.slots.items) (map (of_slot S.calls) sources.new.slots.items)
        (view_over catalog.now sources.old.openings.items nothing_told) lines outcomes.items) }
    ensures cut { (lines : List (List ℕ)) → AreRead lines read.items → OnErr result (CutOver settings (sources_of S.list S.at_hand sources.old)
        (map (of_slot S.counts) sources.old.slots.items) (map (of_slot S.counts) sources.new.slots.items)
        (map (of_slot S.calls) sources.old.slots.items) (map (of_slot S.calls) sources.new.slots.items)
        (view_over catalog.now sources.old.openings.items nothing_told) lines) }
    ensures writable { IfOk result (λ outcomes. All CanBeWritten outcomes.items) }
{
    // Serves the prover alone: there are no more sources than entries of a catalog, so that their number is small.
    prove!(sources.slots.len() <= catalog.len() as usize);
    let lists = Catalogued {
        catalog,
        openings: &sources.openings,
    };
    let Ok(admissions) = admit_all(alloc, &lists, read) else {
        return Err(Memory);
    };
    let Ok(batch) = run_all(
        rt,
        alloc,
        &mut sources.slots,
        &sources.counts,
        &admissions.readies,
        settings,
    ) else {
        return Err(Memory);
    };
    end_lines(alloc, admissions, batch.into_endings())
}
