//! Asking the sources for their sizes again.

ghost use Rattle.std.specs.Prelude.{◌≡◌, ◌<◌, ℕ, length, map, Some, None, All, IfOk};
ghost use Rattle.server_conn.specs.Entries.{IsSized};
ghost use Rattle.query_server.specs.Homes.{AreHomes, home_of};
ghost use Rattle.query_server.specs.Reopening.{AsksOne, AsksSome, IsAsked, IsByItsSize, Reopens, ReopensAll, ReopensAt};

use fetcher::Slot;
use server_conn::OpenedEntry;
use source_api::{FailKind, Source, Trouble};
use std::alloc::Global;
use topk_base::{MAX_OBJECTS, Memory};

/// The source of a list, open or not, if it was taken.
fn home_of(entry: OpenedEntry) -> Option<u32>
    ensures { result ≡ home_of entry }
{
    match entry {
        OpenedEntry::Opened { source, .. } => Some(source),
        OpenedEntry::NotOpened { source } => source,
        OpenedEntry::TooLarge { source, .. } => source,
    }
}

/// What becomes of a list whose source states so many objects at a version.
fn entry_of(size: u64, source: u32, version: u64) -> OpenedEntry
    ensures sized { IsSized result }
    ensures home { home_of result ≡ Some source }
    ensures states { IsByItsSize size version result }
{
    if size > u64::from(MAX_OBJECTS) {
        return OpenedEntry::TooLarge {
            count: size,
            source: Some(source),
        };
    }
    OpenedEntry::Opened {
        count: size as u32,
        source,
        version,
    }
}

/// Asks the source of this number for its size, and for nothing else.
fn ask_again<S: Source>(alloc: Global, source: &mut S, number: u32) -> Result<OpenedEntry, Memory>
    ensures asked { IsAsked S.list S.counts S.calls source.old source.new }
    ensures reopens { IfOk result (Reopens S.list S.counts S.calls S.at_hand source.old source.new) }
    ensures sized { IfOk result IsSized }
    ensures home { IfOk result (λ now. home_of now ≡ Some number) }
{
    let closed = OpenedEntry::NotOpened {
        source: Some(number),
    };
    match source.size(alloc) {
        Ok(size) => Ok(entry_of(size, number, source.version())),
        Err(Trouble::Fail(FailKind::Failed)) => Ok(closed),
        Err(Trouble::Fail(FailKind::Garbled)) => Ok(closed),
        Err(Trouble::Moved { .. }) => Ok(closed),
        Err(Trouble::Fail(FailKind::Memory)) => Err(Memory),
    }
}

/// What becomes now of a list of which this became before. A list without a source stays as it was.
fn entry_again<S: Source>(
    alloc: Global,
    entry: OpenedEntry,
    slots: &mut Vec<Slot<S>>,
) -> Result<OpenedEntry, Memory>
    requires within { (source : ℕ) → home_of entry ≡ Some source → source < length slots.old.items }
    requires sized { IsSized entry }
    ensures asks { AsksOne S.list S.counts S.calls (home_of entry) slots.old.items slots.new.items }
    ensures empty { All (λ slot. slot.feeder ≡ None) slots.old.items → All (λ slot. slot.feeder ≡ None) slots.new.items }
    ensures reopens { IfOk result (ReopensAt S.list S.counts S.calls S.at_hand slots.old.items slots.new.items (home_of entry) entry) }
    ensures sized { IfOk result IsSized }
    ensures home { IfOk result (λ now. home_of now ≡ home_of entry) }
{
    match home_of(entry) {
        Some(number) => ask_again(alloc, &mut slots[number as usize].source, number),
        None => Ok(entry),
    }
}

/// What becomes now of all lists, each of whose sources is asked once at most. The source of no list is asked for nothing.
pub(crate) fn entries_again<S: Source>(
    alloc: Global,
    entries: &[OpenedEntry],
    slots: &mut Vec<Slot<S>>,
) -> Result<Vec<OpenedEntry>, Memory>
    requires homes { AreHomes (length slots.old.items) (map home_of entries.now) }
    requires sized { All IsSized entries.now }
    ensures asks { AsksSome S.list S.counts S.calls (map home_of entries.now) slots.old.items slots.new.items }
    ensures empty { All (λ slot. slot.feeder ≡ None) slots.old.items → All (λ slot. slot.feeder ≡ None) slots.new.items }
    ensures reopens { IfOk result (λ now. ReopensAll S.list S.counts S.calls S.at_hand entries.now now.items slots.old.items slots.new.items) }
    ensures sized { IfOk result (λ now. All IsSized now.items) }
    ensures homes { IfOk result (λ now. map home_of now.items ≡ map home_of entries.now) }
{
    let Ok(mut now) = Vec::with_capacity(alloc, entries.len()) else {
        return Err(Memory);
    };
    for place in 0..entries.len() {
        let Ok(entry) = entry_again(alloc, entries[place], slots) else {
            return Err(Memory);
        };
        now.push_reserved(entry);
    }
    Ok(now)
}
