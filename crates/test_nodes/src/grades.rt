//! Grades: which bytes say one, and how they are written.

use super::bodies::Reads::{Nothing, Says};
use super::bodies::{Reads, is_refused};
use super::none_is_wrong;
use page_json::{read_grade, write_grade};
use std::alloc::Global;

/// Bytes, with the version and the grade that they say.
static BODIES: &[(&[u8], Reads<Option<u32>>)] = &[
    (b"{\"grade\":500}", Says(0, Some(500))),
    (b"{\"grade\":0}", Says(0, Some(0))),
    (b"{\"grade\":null}", Says(0, None)),
    (b"{\"grade\":500,\"note\":1}", Says(0, Some(500))),
    (b"{\"grade\":500,\"version\":7}", Says(7, Some(500))),
    (b"{\"grade\":null,\"version\":7}", Says(7, None)),
    (b"{\"grade\":4294967295}", Says(0, Some(u32::MAX))),
    (b"{\"grade\":4294967296}", Nothing),
    (b"{\"grade\":500.0}", Nothing),
    (b"{\"grade\":5e2}", Nothing),
    (b"{\"grade\":-1}", Nothing),
    (b"{\"grade\":false}", Nothing),
    (b"{\"grade\":\"null\"}", Nothing),
    (b"{\"grade\":[]}", Nothing),
    (b"{}", Nothing),
    (b"null", Nothing),
    (b"{\"count\":500}", Nothing),
    (b"{\"grade\":null,\"grade\":500}", Says(0, Some(500))),
    (b"{\"grade\":null,\"version\":null}", Nothing),
];

/// Whether bytes are read as they are to be.
fn is_read(alloc: Global, bytes: &[u8], reads: Reads<Option<u32>>) -> bool {
    match (read_grade(alloc, bytes), reads) {
        (Ok(said), Says(version, grade)) => said.version == version && said.body == grade,
        (Err(fault), Nothing) => is_refused(fault),
        _ => false,
    }
}

/// The place of the first bytes that are read as something else.
fn first_misread(alloc: Global, bodies: &[(&[u8], Reads<Option<u32>>)]) -> Option<usize> {
    for (place, (bytes, reads)) in bodies.iter().enumerate() {
        if !is_read(alloc, bytes, *reads) {
            return Some(place);
        }
    }
    None
}

#[test]
fn reads_grades(rt: HostRuntime) {
    none_is_wrong(&rt, first_misread(rt.alloc(), BODIES));
}

/// A version and a grade, with the body that says them.
static TEXTS: &[(u64, Option<u32>, &[u8])] = &[
    (0, Some(500), b"{\"grade\":500}"),
    (0, None, b"{\"grade\":null}"),
    (7, None, b"{\"grade\":null,\"version\":7}"),
    (7, Some(0), b"{\"grade\":0,\"version\":7}"),
    (
        u64::MAX,
        Some(u32::MAX),
        b"{\"grade\":4294967295,\"version\":18446744073709551615}",
    ),
];

/// Whether a grade is written as this text.
fn is_written(alloc: Global, version: u64, grade: Option<u32>, text: &[u8]) -> bool {
    let Ok(written) = write_grade(alloc, version, grade) else {
        return false;
    };
    let is_so = written.as_slice() == text;
    drop(written);
    is_so
}

/// The place of the first grade that is written otherwise.
fn first_miswritten(alloc: Global, texts: &[(u64, Option<u32>, &[u8])]) -> Option<usize> {
    for (place, (version, grade, text)) in texts.iter().enumerate() {
        if !is_written(alloc, *version, *grade, text) {
            return Some(place);
        }
    }
    None
}

#[test]
fn writes_grades(rt: HostRuntime) {
    none_is_wrong(&rt, first_miswritten(rt.alloc(), TEXTS));
}
