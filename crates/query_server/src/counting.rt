//! How many objects a pool is to have of each source.

ghost use Rattle.std.specs.Prelude.{◌≡◌, ◌≤◌, length, map, All, IfOk};
ghost use Rattle.server_conn.specs.Entries.{IsSized};
ghost use Rattle.query_server.specs.Homes.{AreHomes, IsWithin, IsCounted, counted_by, home_of};

use server_conn::OpenedEntry;
use std::alloc::Global;
use topk_base::{MAX_OBJECTS, Memory};

/// Puts the count of an open list at the place of its source.
fn put_count(entry: OpenedEntry, counts: &mut [u32])
    requires { IsWithin (length counts.old) entry }
    ensures { counts.new ≡ counted_by entry counts.old }
{
    match entry {
        OpenedEntry::Opened { count, source, .. } => counts[source as usize] = count,
        OpenedEntry::NotOpened { .. } => {}
        OpenedEntry::TooLarge { .. } => {}
    }
}

/// Puts the count of each open list at the place of its source.
fn put_counts(entries: &[OpenedEntry], counts: &mut [u32])
    requires homes { AreHomes (length counts.old) (map home_of entries.now) }
    requires sized { All IsSized entries.now }
    requires small { All (λ count. count ≤ MAX_OBJECTS) counts.old }
    ensures size { length counts.new ≡ length counts.old }
    ensures counted { All (IsCounted counts.new) entries.now }
    ensures small { All (λ count. count ≤ MAX_OBJECTS) counts.new }
{
    for place in 0..entries.len() {
        put_count(entries[place], counts);
    }
}

/// How many objects each of so many sources has, by the lists that are open. A source of no open list has none.
pub(crate) fn counts_of(
    alloc: Global,
    entries: &[OpenedEntry],
    sources: usize,
) -> Result<Vec<u32>, Memory>
    requires homes { AreHomes sources (map home_of entries.now) }
    requires sized { All IsSized entries.now }
    ensures size { IfOk result (λ counts. length counts.items ≡ sources) }
    ensures counted { IfOk result (λ counts. All (IsCounted counts.items) entries.now) }
    ensures small { IfOk result (λ counts. All (λ count. count ≤ MAX_OBJECTS) counts.items) }
{
    let mut counts = vec![in alloc; 0u32; sources]?;
    put_counts(entries, counts.as_mut_slice());
    Ok(counts)
}
