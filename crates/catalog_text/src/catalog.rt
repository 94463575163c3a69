//! The sources of a catalog.

ghost use Rattle.std.specs.Prelude.{◌≡◌, ◌==◌, ◌<◌, ◌≤◌, ◌++◌, ◌∷◌, [], length, map, position, slice_get, option_map, vec_len, vec_capacity, IfOk, OnOk, OnErr};
ghost use Rattle.std.specs.Str.{bytes_eq};
ghost use Rattle.std.specs.Slice.Iter.{iter_rest};
ghost use Rattle.std.specs.Iterator.Adapters.{IterYieldsInOrder};
ghost use Rattle.catalog_text.specs.declared.catalog.Entry.{Entry};
ghost use Rattle.catalog_text.specs.Listed.{listed, listed_parts};
ghost use Rattle.catalog_text.specs.Placed.{PutsFirst};

use super::fields::Parts;
use indexmap::IndexMap;
use std::alloc::Global;
use std::marker::Model;
use std::slice::Iter;
use topk_base::MAX_SOURCES;

/// A source of a catalog.
#[derive(Drop)]
pub struct Entry {
    /// The name of its list: 1 to 32 bytes, a letter and then letters, digits and `_`.
    pub name: Vec<u8>,
    /// Where it is: a file's path, or the address `http://HOST:PORT/PATH` of a server's list.
    pub place: String,
    /// Whether it allows random access.
    pub random: bool,
    /// Whether it allows sorted access.
    pub sorted: bool,
}

/// Why a text is no catalog.
#[derive(Clone, Copy, Debug)]
pub enum CatalogFault {
    /// This record, counted from 1, is the first at fault, and its form is wrong.
    CatalogLine { line: u64 },
    /// This record, counted from 1, is the first at fault, and has the name of an earlier one.
    SameName { line: u64 },
    /// No memory was left.
    Memory,
}

/// The sources of a catalog in their order, which contracts see as a list.
#[derive(Drop)]
pub struct Catalog {
    entries: Vec<Entry>,
    /// Where each name first stands among the entries.
    places: IndexMap<Vec<u8>, u32>,
}

impl Model for Catalog {
    ghost use Rattle.std.specs.Prelude.{List, ◌≤◌, map, vec_len};
    ghost use Rattle.catalog_text.specs.Catalog.{Listed};

    ghost Value = { List Listed };

    ghost use Rattle.catalog_text.specs.Listed.{listed};

    ghost view = { λ c. map listed c.entries.items };

    ghost use Rattle.catalog_text.specs.Placed.{IsPlaced};
    ghost use Rattle.topk_base.specs.declared.TheConstants.{MAX_SOURCES};

    ghost invariant = { λ c. (vec_len c.entries ≤ MAX_SOURCES) × IsPlaced c.entries.items c.places };
}

impl Catalog {
    /// A catalog without sources. Takes no memory yet.
    pub(crate) fn make(alloc: Global) -> Catalog
        ensures { result ≡ [] }
    {
        Catalog {
            entries: Vec::new(alloc),
            places: IndexMap::new(alloc),
        }
    }

    /// Adds a source at the end.
    pub(crate) fn push(&mut self, alloc: Global, parts: &Parts<'_>) -> Result<(), CatalogFault>
        requires { length self.old < MAX_SOURCES }
        ensures { OnOk result (self.new ≡ self.old ++ listed_parts parts.now ∷ []) }
    {
        let entry = entry_of(alloc, parts)?;
        let Ok(()) = make_room(alloc, &mut self.entries, &mut self.places, parts.name) else {
            drop(entry);
            return Err(CatalogFault::Memory);
        };
        self.entries.push_reserved(entry);
        Ok(())
    }

    /// How many sources there are: at most 64.
    pub fn len(&self) -> u32
        ensures { result ≡ length self.now }
    {
        self.entries.len() as u32
    }

    /// Whether there are none.
    pub fn is_empty(&self) -> bool
        ensures { result ≡ (length self.now == 0) }
    {
        self.entries.is_empty()
    }

    /// The source at a place from 0, or None past the end.
    pub fn get(&self, place: u32) -> Option<&Entry>
        ensures { option_map (λ entry. listed entry.now) result ≡ slice_get self.now place }
    {
        self.entries.get(place as usize)
    }

    /// The sources, in their order.
    pub fn iter(&self) -> Iter<'_, Entry>
        ensures rest { map listed (iter_rest result) ≡ self.now }
        ensures few { length (iter_rest result) ≤ MAX_SOURCES }
        ensures runs { IterYieldsInOrder Entry }
    {
        self.entries.iter()
    }

    /// Where the source of a name stands, from 0.
    ///
    /// *Cost*: a look-up.
    pub fn find(&self, name: &[u8]) -> Option<u32>
        ensures { result ≡ position (λ entry. bytes_eq entry.name name.now) self.now }
    {
        self.places.get(name).copied()
    }
}

/// The entry of a record.
fn entry_of(alloc: Global, parts: &Parts<'_>) -> Result<Entry, CatalogFault>
    ensures { IfOk result (λ entry. listed entry ≡ listed_parts parts.now) }
{
    let name = Vec::from_slice(alloc, parts.name)?;
    let place = String::from_str(alloc, parts.place)?;
    Ok(Entry {
        name,
        place,
        random: parts.random,
        sorted: parts.sorted,
    })
}

/// Makes room for one entry more, and puts its name's place. Where memory is refused nothing has changed.
fn make_room(
    alloc: Global,
    entries: &mut Vec<Entry>,
    places: &mut IndexMap<Vec<u8>, u32>,
    name: &[u8],
) -> Result<(), CatalogFault>
    requires { vec_len entries.old < MAX_SOURCES }
    ensures entries { (entries.new.items ≡ entries.old.items) × (vec_len entries.new ≡ vec_len entries.old) }
    ensures room { OnOk result (vec_len entries.new < vec_capacity entries.new) }
    ensures puts { OnOk result (PutsFirst places.old places.new name.now (vec_len entries.old)) }
    ensures stays { OnErr result (places.new.entries ≡ places.old.entries) }
{
    entries.reserve(1)?;
    put_first(alloc, places, name, entries.len() as u32)
}

/// Puts the place of a name, unless it has one.
fn put_first(
    alloc: Global,
    places: &mut IndexMap<Vec<u8>, u32>,
    name: &[u8],
    place: u32,
) -> Result<(), CatalogFault>
    ensures ok { OnOk result (PutsFirst places.old places.new name.now place) }
    ensures err { OnErr result (places.new.entries ≡ places.old.entries) }
{
    if places.contains_key(name) {
        return Ok(());
    }
    let key = Vec::from_slice(alloc, name)?;
    places.insert(key, place)?;
    Ok(())
}
