//! Taking the sources that are wanted, and asking them for their sizes side by side.

ghost use Rattle.std.specs.Prelude.{◌≡◌, ◌≤◌, true, [], OnOk, length, vec_capacity};
ghost use Rattle.std.specs.List.{list_all};
ghost use Rattle.catalog_open.specs.Openings.{AsksEachAtMostOnce, AsksEachOnce};
ghost use Rattle.catalog_open.specs.Takings.{AreAsked, AreTaken, IsAsked, TakesOne, is_answered, not_taken, seen, shelf_seen};

use super::Memory;
use super::entries::place_of_entry;
use catalog_text::Catalog;
use source_api::{FailKind, Shelf, Source, Trouble};
use std::alloc::Global;
use std::thread;
use std::thread::Threads;
use topk_base::MAX_LISTS;

/// In how many threads at most sources are asked side by side: as many as the lists of a query, since each thread costs as much as
/// reading some hundred rows.
const MOST_AT_ONCE: usize = MAX_LISTS;

/// The source of an entry of the catalog, before it is open.
#[derive(Drop)]
pub(crate) enum OpenEntry<S: Drop> {
    /// No line wants it.
    Unwanted,
    /// It couldn't be taken.
    NotTaken,
    /// It was taken, and answered so when it was asked for its size, once it was.
    Taken {
        source: S,
        size: Option<Result<u64, Trouble>>,
    },
}

/// What becomes of an entry whose source couldn't be taken for this cause.
fn not_taken<S: Drop>(why: Trouble) -> Result<OpenEntry<S>, Memory>
    ensures { result ≡ not_taken why }
{
    match why {
        Trouble::Fail(FailKind::Memory) => Err(Memory),
        _ => Ok(OpenEntry::NotTaken),
    }
}

/// Takes the source of a place once, if it is wanted.
fn take_wanted<H: Shelf>(
    alloc: Global,
    shelf: &mut H,
    place: &str,
    wanted: bool,
) -> Result<OpenEntry<H::Item>, Memory>
    ensures { TakesOne (seen H.Item.list H.Item.states H.Item.at_hand H.Item.counts H.Item.calls) wanted place.now
        (shelf_seen H.texts H.lists H.versions H.at H.knows shelf.old) (shelf_seen H.texts H.lists H.versions H.at H.knows shelf.new) result }
{
    if !wanted {
        return Ok(OpenEntry::Unwanted);
    }
    match shelf.take(alloc, place) {
        Ok(source) => Ok(OpenEntry::Taken { source, size: None }),
        Err(why) => not_taken(why),
    }
}

/// Takes the sources of a catalog that are marked, in its order, as far as there is memory.
fn take_each<H: Shelf>(
    alloc: Global,
    shelf: &mut H,
    catalog: &Catalog,
    marks: &[bool],
    entries: &mut Vec<OpenEntry<H::Item>>,
) -> Result<(), Memory>
    requires marks { length marks.now ≡ length catalog.now }
    requires none { entries.old.items ≡ [] }
    requires room { length catalog.now ≤ vec_capacity entries.old }
    ensures taken { AreTaken (seen H.Item.list H.Item.states H.Item.at_hand H.Item.counts H.Item.calls) catalog.now marks.now
        (shelf_seen H.texts H.lists H.versions H.at H.knows shelf.old) (shelf_seen H.texts H.lists H.versions H.at H.knows shelf.new) entries.new.items }
    ensures all { OnOk result (length entries.new.items ≡ length catalog.now) }
    ensures once { OnOk result (AsksEachOnce catalog.now marks.now (H.at shelf.old) (H.at shelf.new)) }
    ensures few { AsksEachAtMostOnce catalog.now marks.now (H.at shelf.old) (H.at shelf.new) }
{
    for place in 0..catalog.len() {
        let wanted = marks[place as usize];
        let entry = match take_wanted(alloc, shelf, place_of_entry(catalog, place), wanted) {
            Ok(entry) => entry,
            Err(_) => return Err(Memory),
        };
        entries.push_reserved(entry);
    }
    Ok(())
}

/// Asks a source that was taken for its size, unless it was asked.
fn ask<S: Source>(alloc: Global, entry: &mut OpenEntry<S>)
    ensures { IsAsked (seen S.list S.states S.at_hand S.counts S.calls) entry.old entry.new }
{
    if let OpenEntry::Taken { source, size } = entry {
        if size.is_none() {
            *size = Some(source.size(alloc));
        }
    }
}

/// Asks each source that was taken for its size once, side by side, in at most `MOST_AT_ONCE` threads.
fn ask_all<W: Threads + Sync, S: Source>(rt: &W, alloc: Global, entries: &mut [OpenEntry<S>])
    ensures { AreAsked (seen S.list S.states S.at_hand S.counts S.calls) entries.old entries.new }
{
    let threads = entries.len().clamp(1, MOST_AT_ONCE);
    thread::for_each_mut(
        rt,
        entries,
        threads,
        &|_, entry: &mut OpenEntry<S>|
            ensures { IsAsked (seen S.list S.states S.at_hand S.counts S.calls) entry.entry.now entry.exit.now }
        { ask(alloc, entry) },
    );
}

/// Whether it is known what becomes of an entry: a source that was taken was asked for its size, and had the memory to answer.
fn is_answered<S: Drop>(entry: &OpenEntry<S>) -> bool
    ensures { result ≡ is_answered entry.now }
{
    match entry {
        OpenEntry::Taken { size: None, .. } => false,
        OpenEntry::Taken {
            size: Some(Err(Trouble::Fail(FailKind::Memory))),
            ..
        } => false,
        _ => true,
    }
}

/// Whether it is known of all entries.
fn all_answered<S: Drop>(entries: &[OpenEntry<S>]) -> bool
    ensures { result ≡ list_all is_answered entries.now }
{
    entries.iter().all(|entry| is_answered(entry))
}

/// Takes the sources of a catalog that are marked, each once and in its order, and then asks each for its size once, side by side. Where memory is
/// refused some may be taken.
pub(crate) fn take_and_ask<W: Threads + Sync, H: Shelf>(
    rt: &W,
    alloc: Global,
    shelf: &mut H,
    catalog: &Catalog,
    marks: &[bool],
    entries: &mut Vec<OpenEntry<H::Item>>,
) -> Result<(), Memory>
    requires marks { length marks.now ≡ length catalog.now }
    requires none { entries.old.items ≡ [] }
    requires room { length catalog.now ≤ vec_capacity entries.old }
    ensures taken { AreTaken (seen H.Item.list H.Item.states H.Item.at_hand H.Item.counts H.Item.calls) catalog.now marks.now
        (shelf_seen H.texts H.lists H.versions H.at H.knows shelf.old) (shelf_seen H.texts H.lists H.versions H.at H.knows shelf.new) entries.new.items }
    ensures all { OnOk result (length entries.new.items ≡ length catalog.now) }
    ensures answered { OnOk result (list_all is_answered entries.new.items ≡ true) }
    ensures once { OnOk result (AsksEachOnce catalog.now marks.now (H.at shelf.old) (H.at shelf.new)) }
    ensures few { AsksEachAtMostOnce catalog.now marks.now (H.at shelf.old) (H.at shelf.new) }
{
    let Ok(()) = take_each(alloc, shelf, catalog, marks, entries) else {
        return Err(Memory);
    };
    ask_all(rt, alloc, entries.as_mut_slice());
    if all_answered(entries) {
        Ok(())
    } else {
        Err(Memory)
    }
}
