//! A bundle that is read.

use super::holds;
use bundle_text::{Bundle, read_bundle};
use std::alloc::Global;

/// Lets a bundle go: it falls out of scope, and is written out once.
fn let_go(_bundle: Bundle) {}

/// Two lists of two rows, and a query.
const TWO: &[u8] = b"list A\r\n1,900\n2,800\nlist B_2\n2,7\n1,7\nquery top 1 by A using ta\r";

/// Whether a list has this row second.
fn has_second(bundle: &Bundle, list: usize, object: u32, grade: u32) -> bool {
    match bundle.lists.get(list) {
        Some(rows) => rows.get(1).map(|row| (row.object, row.grade)) == Some((object, grade)),
        None => false,
    }
}

/// Whether a list has this name.
fn has_name(bundle: &Bundle, list: usize, name: &[u8]) -> bool {
    match bundle.names.get(list) {
        Some(found) => found.as_slice() == name,
        None => false,
    }
}

/// Whether a bundle is what these two lists and the query spell.
fn is_as_spelled(bundle: &Bundle) -> bool {
    bundle.names.len() == 2
        && bundle.lists.len() == 2
        && has_name(bundle, 0, b"A")
        && has_name(bundle, 1, b"B_2")
        && has_second(bundle, 0, 2, 800)
        && has_second(bundle, 1, 1, 7)
        && bundle.query.as_slice() == b"top 1 by A using ta\r".as_slice()
}

/// Whether the two lists and the query are read as they are spelled.
fn is_read_as_spelled(alloc: Global) -> bool {
    match read_bundle(alloc, TWO) {
        Ok(bundle) => {
            let is_so = is_as_spelled(&bundle);
            let_go(bundle);
            is_so
        }
        Err(_) => false,
    }
}

#[test]
fn keeps_what_was_spelled(rt: HostRuntime) {
    holds(&rt, is_read_as_spelled(rt.alloc()));
}
