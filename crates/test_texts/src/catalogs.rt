//! A catalog that is read.

use catalog_text::{Catalog, read_catalog};
use std::alloc::Global;

/// A catalog with an order mark, an empty line, a quoted name, and a quoted place with a comma and a quote.
const TWO: &[u8] =
    b"\xEF\xBB\xBFname,place,random\r\n\r\nA,lists/a.csv,yes\r\n\"B_2\",\"b,\"\"c\",no";

/// Whether the catalog has at a place, and finds there, a source with this name and place that allows sorted access and, as told, random access.
fn has(catalog: &Catalog, at: u32, name: &[u8], place: &str, random: bool) -> bool {
    let Some(entry) = catalog.get(at) else {
        return false;
    };
    if entry.name.as_slice() != name || entry.place.as_str() != place {
        return false;
    }
    entry.random == random && entry.sorted && catalog.find(name) == Some(at)
}

/// Whether the catalog has exactly the two sources.
fn has_two(catalog: &Catalog) -> bool {
    if catalog.len() != 2 || catalog.is_empty() || catalog.find(b"C").is_some() {
        return false;
    }
    has(catalog, 0, b"A", "lists/a.csv", true) && has(catalog, 1, b"B_2", "b,\"c", false)
}

/// Whether that catalog is read, with its two sources.
fn is_read(alloc: Global) -> bool {
    let Ok(catalog) = read_catalog(alloc, TWO) else {
        return false;
    };
    let has_both = has_two(&catalog);
    drop(catalog);
    has_both
}

#[test]
fn reads_a_catalog(rt: HostRuntime) {
    assert!(rt; is_read(rt.alloc()));
}
