//! The lists of a catalog by name.

ghost use Rattle.std.specs.Prelude.{◌≡◌, slice_index_or};
ghost use Rattle.catalog_text.specs.Listed.{listed};
ghost use Rattle.catalog_open.specs.Views.{said_of};
ghost use Rattle.catalog_open.specs.declared.opened.Opening.TheVariants as Opening;

use super::opened::Opening;
use catalog_text::{Catalog, Entry};
use query_admission::{ListInfo, Lists};

/// The lists of a catalog by name, with what became of its sources. A source that the openings have no place for isn't open.
#[derive(Clone, Copy)]
pub struct Catalogued<'a> {
    pub catalog: &'a Catalog,
    pub openings: &'a [Opening],
}

/// What became of the source at a place of the catalog.
fn opening_at(openings: &[Opening], place: u32) -> Opening
    ensures { result ≡ slice_index_or openings.now place Opening.Closed }
{
    match openings.get(place as usize) {
        Some(opening) => *opening,
        None => Opening::Closed,
    }
}

/// What the list of an entry says of itself whose source became this. One that isn't open states no size.
pub fn said_of(entry: &Entry, opening: Opening) -> ListInfo
    ensures { result ≡ said_of (listed entry.now) opening }
{
    match opening {
        Opening::Closed => ListInfo {
            size: None,
            random: entry.random,
            sorted: entry.sorted,
            source: 0,
            version: 0,
        },
        Opening::Open {
            size,
            source,
            version,
        } => ListInfo {
            size: Some(size),
            random: entry.random,
            sorted: entry.sorted,
            source,
            version,
        },
    }
}

impl<'a> Lists for Catalogued<'a> {
    ghost use Rattle.catalog_open.specs.Views.{view_over, nothing_told};

    ghost view = { λ lists. view_over lists.catalog.now lists.openings.now nothing_told };

    fn find(&self, name: &[u8]) -> Option<ListInfo> {
        let place = self.catalog.find(name)?;
        let entry = self.catalog.get(place)?;
        Some(said_of(entry, opening_at(self.openings, place)))
    }
}
