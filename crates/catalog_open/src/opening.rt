//! Opening the sources that are wanted.

ghost use Rattle.std.specs.Prelude.{◌≡◌, ◌<◌, [], ℕ, List, IfOk, OnErr, OnOk, length};
ghost use Rattle.source_api.specs.Places.{SameAtEach};
ghost use Rattle.catalog_open.specs.Entries.{IsMarked, entry_at};
ghost use Rattle.catalog_open.specs.Openings.{AreOpened, AsksEachAtMostOnce, AsksEachOnce, GivesNothing, no_sources};
ghost use Rattle.catalog_open.specs.Slots.{HasRoom, sources_of};
ghost use Rattle.catalog_open.specs.Takings.{AreReady, SameShelf, Settles, seen, shelf_seen, size_to_open};

use super::Memory;
use super::entries::place_of_entry;
use super::opened::{OpenSources, Opening, run_count};
use super::taking::{OpenEntry, take_and_ask};
use catalog_text::Catalog;
use fetcher::Slot;
use source_api::{Shelf, Source, Trouble};
use std::alloc::Global;
use std::thread::Threads;

/// The size under which a source is opened that answered so when it was asked. None is opened where memory was refused.
fn size_to_open(short: bool, size: Option<Result<u64, Trouble>>) -> Option<u64>
    ensures { result ≡ size_to_open short size }
{
    match size {
        Some(Ok(told)) if !short => Some(told),
        _ => None,
    }
}

/// Settles the next entry of the catalog: puts its source behind the open ones, or puts it back where it isn't open.
fn settle_next<H: Shelf>(
    shelf: &mut H,
    catalog: &Catalog,
    entry: OpenEntry<H::Item>,
    short: bool,
    opened: &mut OpenSources<H::Item>,
)
    requires within { length opened.old.openings.items < length catalog.now }
    requires room { HasRoom (length catalog.now) opened.old }
    ensures room { HasRoom (length catalog.now) opened.new }
    ensures same { SameShelf (shelf_seen H.texts H.lists H.versions H.at H.knows shelf.old) (shelf_seen H.texts H.lists H.versions H.at H.knows shelf.new) }
    ensures settles { Settles (seen H.Item.list H.Item.states H.Item.at_hand H.Item.counts H.Item.calls) short entry catalog.now
        (shelf_seen H.texts H.lists H.versions H.at H.knows shelf.old) (shelf_seen H.texts H.lists H.versions H.at H.knows shelf.new) opened.old opened.new }
{
    // Serves the prover alone: a catalog has so many entries that their number is small.
    let _many = catalog.len();
    let place = opened.openings.len() as u32;
    let OpenEntry::Taken { source, size } = entry else {
        opened.openings.push_reserved(Opening::Closed);
        return;
    };
    let Some(size) = size_to_open(short, size) else {
        shelf.put_back(place_of_entry(catalog, place), source);
        opened.openings.push_reserved(Opening::Closed);
        return;
    };
    opened.openings.push_reserved(Opening::Open {
        size,
        source: opened.slots.len() as u32,
        version: source.version(),
    });
    opened.places.push_reserved(place);
    opened.counts.push_reserved(run_count(size));
    opened.slots.push_reserved(Slot::make(source));
}

/// Opens the sources of a catalog that are marked: each is asked of the shelf exactly once, in the catalog's order, and then those that
/// were taken are asked for their sizes, each exactly once, side by side in at most eight threads. A source that isn't open then was put back,
/// and where memory is refused all were. Nothing is read of the sources.
///
/// *Cost*: one `take` and one `size` for each source that is wanted.
pub fn open_wanted<W: Threads + Sync, H: Shelf>(
    rt: &W,
    alloc: Global,
    shelf: &mut H,
    catalog: &Catalog,
    marks: &[bool],
) -> Result<OpenSources<H::Item>, Memory>
    requires { length marks.now ≡ length catalog.now }
    ensures texts { SameAtEach (H.texts shelf.old) (H.texts shelf.new) }
    ensures lists { SameAtEach (H.lists shelf.old) (H.lists shelf.new) }
    ensures versions { SameAtEach (H.versions shelf.old) (H.versions shelf.new) }
    ensures back { (place : List ℕ) → GivesNothing (H.at shelf.old place) (H.at shelf.new place) }
    ensures few { AsksEachAtMostOnce catalog.now marks.now (H.at shelf.old) (H.at shelf.new) }
    ensures once { OnOk result (AsksEachOnce catalog.now marks.now (H.at shelf.old) (H.at shelf.new)) }
    ensures ready { IfOk result (AreReady (seen H.Item.list H.Item.states H.Item.at_hand H.Item.counts H.Item.calls) catalog.now (H.knows shelf.new)) }
    ensures opened { IfOk result (λ sources. AreOpened (H.lists shelf.old) (H.versions shelf.old) catalog.now (IsMarked marks.now) (H.at shelf.old) (H.at shelf.new)
        sources.openings.items (sources_of H.Item.list H.Item.at_hand sources)) }
    ensures closed { OnErr result (AreOpened (H.lists shelf.old) (H.versions shelf.old) catalog.now (IsMarked marks.now) (H.at shelf.old) (H.at shelf.new) [] no_sources) }
{
    let Ok(mut entries) = Vec::with_capacity(alloc, catalog.len() as usize) else {
        return Err(Memory);
    };
    let Ok(mut opened) = OpenSources::with_room(alloc, catalog.len() as usize) else {
        return Err(Memory);
    };
    let short = take_and_ask(rt, alloc, shelf, catalog, marks, &mut entries).is_err();
    entries.reverse();
    while let Some(entry) = entries.pop() {
        settle_next(shelf, catalog, entry, short, &mut opened);
    }
    if short {
        return Err(Memory);
    }
    Ok(opened)
}
