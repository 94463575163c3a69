//! Pages: which bytes say one, how they are written, and how many rows they may have.

use super::bodies::Reads::{Nothing, Says};
use super::bodies::{Pairs, Reads, are, is_refused};
use super::{holds, none_is_wrong};
use page_json::{JsonFault, Versioned, read_page, write_page};
use ranked_list::Row;
use std::alloc::{AllocError, Global};

/// Bytes, with the version and the rows that they say.
static BODIES: &[(&[u8], Reads<Pairs>)] = &[
    (b"{\"rows\":[]}", Says(0, &[])),
    (b"{\"rows\":[[1,900]]}", Says(0, &[(1, 900)])),
    (
        b"{\"rows\":[[1,900],[2,800]],\"version\":7}",
        Says(7, &[(1, 900), (2, 800)]),
    ),
    // Any rows, also out of order, twice, or with a grade above the greatest.
    (
        b"{ \"rows\" : [ [2, 800] ,\n[2,900],[0,4294967295],[4294967295,0] ] }",
        Says(0, &[(2, 800), (2, 900), (0, u32::MAX), (u32::MAX, 0)]),
    ),
    (b"{\"rows\":[[4294967296,900]]}", Nothing),
    (b"{\"rows\":[[1,4294967296]]}", Nothing),
    // A row is an array of exactly two whole numbers.
    (b"{\"rows\":[[1,900,3]]}", Nothing),
    (b"{\"rows\":[[1]]}", Nothing),
    (b"{\"rows\":[[]]}", Nothing),
    (b"{\"rows\":[1,900]}", Nothing),
    (b"{\"rows\":[[1,900],2]}", Nothing),
    (b"{\"rows\":[[1,null]]}", Nothing),
    (b"{\"rows\":[[null,900]]}", Nothing),
    (b"{\"rows\":[[1,\"900\"]]}", Nothing),
    (b"{\"rows\":[[1,9e2]]}", Nothing),
    (b"{\"rows\":[[1.0,900]]}", Nothing),
    (b"{\"rows\":[[1,-900]]}", Nothing),
    (b"{\"rows\":[[1,[900]]]}", Nothing),
    (b"{\"rows\":[{\"object\":1,\"grade\":900}]}", Nothing),
    (b"{\"rows\":[[1,900],[2,800]", Nothing),
    (b"{\"rows\":null}", Nothing),
    (b"{\"rows\":{}}", Nothing),
    (b"{}", Nothing),
    (b"[[1,900]]", Nothing),
    (b"{\"rows\":[[1,900]],\"version\":-1}", Nothing),
    (b"{\"rows\":3,\"rows\":[[1,900]]}", Says(0, &[(1, 900)])),
];

/// Whether a page is as it is to be.
fn is_page(page: &Result<Versioned<Vec<Row>>, JsonFault>, reads: Reads<Pairs>) -> bool {
    match (page, reads) {
        (Ok(said), Says(version, pairs)) => {
            said.version == version && are(said.body.as_slice(), pairs)
        }
        (Err(fault), Nothing) => is_refused(*fault),
        _ => false,
    }
}

/// Whether bytes are read as they are to be.
fn is_read(alloc: Global, bytes: &[u8], reads: Reads<Pairs>) -> bool {
    let page = read_page(alloc, bytes);
    let is_so = is_page(&page, reads);
    drop(page);
    is_so
}

/// The place of the first bytes that are read as something else.
fn first_misread(alloc: Global, bodies: &[(&[u8], Reads<Pairs>)]) -> Option<usize> {
    for (place, (bytes, reads)) in bodies.iter().enumerate() {
        if !is_read(alloc, bytes, *reads) {
            return Some(place);
        }
    }
    None
}

#[test]
fn reads_pages(rt: HostRuntime) {
    none_is_wrong(&rt, first_misread(rt.alloc(), BODIES));
}

/// So many rows, whose objects count from 1 and whose grades fall from a million.
fn made_rows(alloc: Global, count: u32) -> Result<Vec<Row>, AllocError> {
    let mut rows = Vec::with_capacity(alloc, count as usize)?;
    for object in 0..count {
        rows.push(Row {
            object,
            grade: 1_000_000u32.saturating_sub(object),
        })?;
    }
    Ok(rows)
}

/// Whether bytes are read as these rows at this version.
fn is_read_as(alloc: Global, bytes: &[u8], version: u64, rows: &[Row]) -> bool {
    let Ok(said) = read_page(alloc, bytes) else {
        return false;
    };
    let Versioned {
        version: stated,
        body,
    } = said;
    let is_so = stated == version && body.as_slice() == rows;
    drop(body);
    is_so
}

/// Whether bytes are refused as no page.
fn is_no_page(alloc: Global, bytes: &[u8]) -> bool {
    is_read(alloc, bytes, Nothing)
}

/// Whether so many rows are written, and then read as they were, or refused where they are too many.
fn reads_back(alloc: Global, version: u64, count: u32, is_page: bool) -> bool {
    let Ok(rows) = made_rows(alloc, count) else {
        return false;
    };
    let Ok(text) = write_page(alloc, version, rows.as_slice()) else {
        drop(rows);
        return false;
    };
    let is_so = if is_page {
        is_read_as(alloc, text.as_slice(), version, rows.as_slice())
    } else {
        is_no_page(alloc, text.as_slice())
    };
    drop(text);
    drop(rows);
    is_so
}

#[test]
fn has_10000_rows_at_most(rt: HostRuntime) {
    holds(&rt, reads_back(rt.alloc(), 0, 10_000, true));
    holds(&rt, reads_back(rt.alloc(), 5, 10_000, true));
    holds(&rt, reads_back(rt.alloc(), 0, 10_001, false));
}

/// A version and rows, with the body that says them.
static TEXTS: &[(u64, &[Row], &[u8])] = &[
    (0, &[], b"{\"rows\":[]}"),
    (7, &[], b"{\"rows\":[],\"version\":7}"),
    (
        0,
        &[
            Row {
                object: 1,
                grade: 900,
            },
            Row {
                object: 2,
                grade: 800,
            },
        ],
        b"{\"rows\":[[1,900],[2,800]]}",
    ),
    (
        7,
        &[Row {
            object: u32::MAX,
            grade: 0,
        }],
        b"{\"rows\":[[4294967295,0]],\"version\":7}",
    ),
];

/// Whether rows are written as this text.
fn is_written(alloc: Global, version: u64, rows: &[Row], text: &[u8]) -> bool {
    let Ok(written) = write_page(alloc, version, rows) else {
        return false;
    };
    let is_so = written.as_slice() == text;
    drop(written);
    is_so
}

/// The place of the first page that is written otherwise.
fn first_miswritten(alloc: Global, texts: &[(u64, &[Row], &[u8])]) -> Option<usize> {
    for (place, (version, rows, text)) in texts.iter().enumerate() {
        if !is_written(alloc, *version, rows, text) {
            return Some(place);
        }
    }
    None
}

#[test]
fn writes_pages(rt: HostRuntime) {
    none_is_wrong(&rt, first_miswritten(rt.alloc(), TEXTS));
}
