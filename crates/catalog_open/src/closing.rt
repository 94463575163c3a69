//! Putting the sources back.

ghost use Rattle.std.specs.Prelude.{◌≡◌, All, Contains, length, map, reverse};
ghost use Rattle.source_api.specs.Places.{SameAtEach};
ghost use Rattle.catalog_open.specs.Slots.{IsIdle, of_slot};
ghost use Rattle.catalog_open.specs.Openings.{IsKnownAt, KeepsOthers, PutsBack, put_back};

use super::entries::place_of_entry;
use super::opened::OpenSources;
use catalog_text::Catalog;
use source_api::Shelf;

/// Takes the open sources of a catalog out of their slots and puts them back, the last first. Each is put back once. Takes no memory.
///
/// *Cost*: one `put_back` for each open source. Takes no memory.
pub fn put_back_all<H: Shelf>(shelf: &mut H, catalog: &Catalog, sources: OpenSources<H::Item>)
    requires many { length sources.slots.items ≡ length sources.places.items }
    requires idle { All IsIdle sources.slots.items }
    requires known { All (IsKnownAt catalog.now (H.knows shelf.old)) sources.places.items }
    ensures texts { SameAtEach (H.texts shelf.old) (H.texts shelf.new) }
    ensures lists { SameAtEach (H.lists shelf.old) (H.lists shelf.new) }
    ensures versions { SameAtEach (H.versions shelf.old) (H.versions shelf.new) }
    ensures others { KeepsOthers catalog.now (Contains sources.places.items) (H.at shelf.old) (H.at shelf.new) }
    ensures moves { PutsBack (reverse (put_back catalog.now sources.places.items (map (of_slot H.Item.counts) sources.slots.items))) (H.at shelf.old) (H.at shelf.new) }
{
    let OpenSources {
        openings: _openings,
        places,
        counts: _counts,
        mut slots,
    } = sources;
    while let Some(slot) = slots.pop() {
        shelf.put_back(
            place_of_entry(catalog, places[slots.len()]),
            slot.into_source(),
        );
    }
}
