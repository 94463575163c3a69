//! What becomes of the lists of a catalog whose sources were opened.

ghost use Rattle.std.specs.Prelude.{◌≡◌, map, true, IfOk};
ghost use Rattle.port_calls.specs.Opening.{entry_of, every};

use catalog_open::Opening;
use catalog_text::Catalog;
use query_server::OpenedEntry;
use std::alloc::Global;
use topk_base::{MAX_OBJECTS, Memory};

/// What becomes of a list of whose source this became.
fn entry_of(opening: Opening) -> OpenedEntry
    ensures { result ≡ entry_of opening }
{
    match opening {
        Opening::Closed => OpenedEntry::NotOpened { source: None },
        Opening::Open {
            size,
            source,
            version,
        } => {
            if size <= u64::from(MAX_OBJECTS) {
                OpenedEntry::Opened {
                    count: size as u32,
                    source,
                    version,
                }
            } else {
                OpenedEntry::TooLarge {
                    count: size,
                    source: Some(source),
                }
            }
        }
    }
}

/// What becomes of the lists, in the catalog's order.
pub(crate) fn entries_of(alloc: Global, openings: &[Opening]) -> Result<Vec<OpenedEntry>, Memory>
    ensures { IfOk result (λ entries. entries.items ≡ map entry_of openings.now) }
{
    let mut entries = Vec::with_capacity(alloc, openings.len())?;
    for place in 0..openings.len() {
        entries.push_reserved(entry_of(openings[place]));
    }
    Ok(entries)
}

/// A mark for each source of a catalog.
pub(crate) fn mark_every(alloc: Global, catalog: &Catalog) -> Result<Vec<bool>, Memory>
    ensures { IfOk result (λ marks. marks.items ≡ every catalog.now) }
{
    match vec![in alloc; true; catalog.len() as usize] {
        Ok(marks) => Ok(marks),
        Err(_) => Err(Memory),
    }
}
