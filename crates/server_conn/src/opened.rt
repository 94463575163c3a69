//! The lists of a catalog with what became of their sources.

ghost use Rattle.std.specs.Prelude.{◌≡◌, List, All, map, IfOk};
ghost use Rattle.query_admission.specs.Admission.{Admits};
ghost use Rattle.query_admission.specs.Causes.{line_over};
ghost use Rattle.server_conn.specs.Entries.{AreEntriesOf, view_in, opening_of, IsThere, HasSources};
ghost use Rattle.catalog_open.specs.Entries.{opening_at};
ghost use Rattle.source_pool.specs.declared.hold.Hold.{Hold};

use catalog_open::{Opening, said_of};
use catalog_text::Catalog;
use query_admission::{Admitted, ListInfo, Lists, Memory, admit};
use std::alloc::Global;
use std::marker::Model;

/// What became of the source of an entry.
#[derive(Clone, Copy, PartialEq, Eq)]
pub enum OpenedEntry {
    /// It is open, with so many objects, at most 200,000, at this version; `source` is its number in the pool.
    Opened {
        count: u32,
        source: u32,
        version: u64,
    },
    /// It isn't open. Its source has this number if it was taken.
    NotOpened {
        source: Option<u32>,
    },
    /// It states so many objects, which are more than 200,000.
    TooLarge {
        count: u64,
        source: Option<u32>,
    },
}

/// A catalog with what became of the source of each entry. Contracts see both.
#[derive(Drop)]
pub struct OpenedCatalog {
    catalog: Catalog,
    entries: Vec<OpenedEntry>,
}

impl Model for OpenedCatalog {
    ghost use Rattle.server_conn.specs.Entries.{Openings};

    ghost Value = { Openings };

    ghost view = { λ o. record { catalog = o.catalog; entries = o.entries.items } };

    ghost use Rattle.server_conn.specs.Entries.{AreEntriesOf};

    ghost invariant = { λ o. AreEntriesOf o.catalog o.entries.items };
}

impl OpenedCatalog {
    /// A catalog and what became of its sources, in its order. Takes no memory.
    pub fn make(catalog: Catalog, entries: Vec<OpenedEntry>) -> OpenedCatalog
        requires { AreEntriesOf catalog entries.items }
        ensures { result ≡ record { catalog = catalog; entries = entries.items } }
    {
        OpenedCatalog { catalog, entries }
    }

    /// Puts what became of the sources now in the place of what became of them before.
    pub fn reopen(&mut self, entries: Vec<OpenedEntry>)
        requires { AreEntriesOf self.old.catalog entries.items }
        ensures { self.new ≡ record { catalog = self.old.catalog; entries = entries.items } }
    {
        self.entries = entries;
    }

    /// The catalog.
    pub fn catalog(&self) -> &Catalog
        ensures { result.now ≡ self.now.catalog }
    {
        &self.catalog
    }

    /// What became of the sources, in the catalog's order.
    pub fn entries(&self) -> &[OpenedEntry]
        ensures value { result.now ≡ self.now.entries }
        ensures are { AreEntriesOf self.now.catalog self.now.entries }
    {
        self.entries.as_slice()
    }

    /// What a query line comes to before it runs: the first refusal that holds, or its query, ready to run over the pool. `line` is its number
    /// in the input, from 1.
    ///
    /// *Cost*: `query_admission::admit`.
    pub fn admit(&self, alloc: Global, line: u64, bytes: &[u8]) -> Result<Admitted, Memory>
        ensures admits { IfOk result (Admits (line_over (view_in self.now) line bytes.now)) }
        ensures sources { (holds : List Hold) → All (IsThere holds) self.now.entries → IfOk result (HasSources holds) }
    {
        // Serves the prover alone: a field that is read shows the invariant.
        let _ = &self.catalog;
        admit(alloc, self, line, bytes)
    }
}

/// What admission is told of what became of a source.
fn opening_of(entry: OpenedEntry) -> Opening
    ensures { result ≡ opening_of entry }
{
    match entry {
        OpenedEntry::Opened {
            count,
            source,
            version,
        } => Opening::Open {
            size: count as u64,
            source,
            version,
        },
        OpenedEntry::NotOpened { .. } => Opening::Closed,
        OpenedEntry::TooLarge { count, .. } => Opening::Open {
            size: count,
            source: 0,
            version: 0,
        },
    }
}

/// The same of the source of the entry at a place.
fn opening_at(entries: &[OpenedEntry], place: u32) -> Opening
    ensures { result ≡ opening_at (map opening_of entries.now) place }
{
    match entries.get(place as usize) {
        Some(entry) => opening_of(*entry),
        None => Opening::Closed,
    }
}

impl Lists for OpenedCatalog {
    ghost use Rattle.server_conn.specs.Entries.{view_in};

    ghost view = { λ opened. view_in opened };

    fn find(&self, name: &[u8]) -> Option<ListInfo> {
        let place = self.catalog.find(name)?;
        let entry = self.catalog.get(place)?;
        Some(said_of(entry, opening_at(&self.entries, place)))
    }
}
