//! The entries of a catalog.

ghost use Rattle.std.specs.Prelude.{◌≡◌, ◌<◌, length};
ghost use Rattle.catalog_open.specs.Entries.{entry_at};

use catalog_text::Catalog;

/// The place of an entry of the catalog, by where the entry stands.
pub(crate) fn place_of_entry(catalog: &Catalog, entry: u32) -> &str
    requires { entry < length catalog.now }
    ensures { result.now ≡ (entry_at catalog.now entry).place }
{
    let Some(entry) = catalog.get(entry) else {
        unreachable!();
    };
    entry.place.as_str()
}
