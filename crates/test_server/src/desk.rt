//! A catalog of four lists, and a pool of the two sources that are open.

ghost use Rattle.std.specs.Prelude.{◌≡◌, IfSome};
ghost use Rattle.test_query_support.specs.Pairs.{IsPair};
ghost use Rattle.server_conn.specs.Entries.{MayAnswer};
ghost use Rattle.source_pool.specs.Passes.{IsIdleOf};
ghost use Rattle.test_server.specs.Four.{four_entries};

use catalog_text::read_catalog;
use server_conn::{OpenedCatalog, OpenedEntry};
use std::alloc::Global;
use test_query_support::Pair;

/// Four lists: A and B are open, C isn't yet, and D is too large.
const CATALOG: &[u8] = b"name,place,random\nA,a,yes\nB,b,yes\nC,c,yes\nD,d,yes\n";

/// What became of their sources: those of A and B have three objects, A's at version 7.
fn four_entries(alloc: Global) -> Option<Vec<OpenedEntry>>
    ensures { IfSome result (λ entries. entries.items ≡ four_entries) }
{
    let Ok(mut entries) = Vec::with_capacity(alloc, 4) else {
        return None;
    };
    entries.push_reserved(OpenedEntry::Opened {
        count: 3,
        source: 0,
        version: 7,
    });
    entries.push_reserved(OpenedEntry::Opened {
        count: 3,
        source: 1,
        version: 0,
    });
    entries.push_reserved(OpenedEntry::NotOpened { source: Some(2) });
    entries.push_reserved(OpenedEntry::TooLarge {
        count: 300_000,
        source: None,
    });
    Some(entries)
}

/// The lists with what became of their sources. None without memory.
pub(crate) fn open_lists(alloc: Global) -> Option<OpenedCatalog>
    ensures { IfSome result (λ opened. opened.entries ≡ four_entries) }
{
    let Ok(catalog) = read_catalog(alloc, CATALOG) else {
        return None;
    };
    let Some(entries) = four_entries(alloc) else {
        drop(catalog);
        return None;
    };
    if catalog.len() != 4 {
        drop(entries);
        drop(catalog);
        return None;
    }
    Some(OpenedCatalog::make(catalog, entries))
}

/// Over a pool of two sources of three objects that was just opened lines may be answered, and both its feeders are idle.
pub(crate) fn opened_may_answer(lists: &OpenedCatalog, pair: &Pair)
    requires lists { lists.now.entries ≡ four_entries }
    requires pair { IsPair 3 pair.now }
    ensures may { MayAnswer lists.now pair.now.pool pair.now.pass }
    ensures first { IsIdleOf pair.now.pool pair.now.first }
    ensures second { IsIdleOf pair.now.pool pair.now.second }
{}
