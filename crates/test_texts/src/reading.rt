//! Certificates that are read.

use super::holds;
use access_log::Items;
use cert_text::{Accesses, Certificate, Guarantee, read_certificate};
use query_text::{Query, print};
use std::alloc::Global;
use test_support::{FIRST_ACCESSES, FIRST_ITEM, FIRST_QUERY, FIRST_TEXT};

/// Whether a query has this text.
fn is_printed(alloc: Global, query: &Query, expected: &[u8]) -> bool {
    let Ok(text) = print(alloc, query) else {
        return false;
    };
    let is_so = text.as_slice() == expected;
    drop(text);
    is_so
}

/// Whether the numbers of a certificate are those of the first example.
fn has_numbers(certificate: &Certificate) -> bool {
    let figures = [
        certificate.line,
        u64::from(certificate.count),
        certificate.depth,
        certificate.sorted,
        certificate.random,
        certificate.cost,
    ];
    figures == [1, 3, 2, 4, 3, 7]
}

/// Whether an answer is that of the first example.
fn has_item(items: Items) -> bool {
    let items = items.into_vec();
    let is_so = items.as_slice() == [FIRST_ITEM].as_slice();
    drop(items);
    is_so
}

/// Whether accesses are those of the first example.
fn has_accesses(made: Accesses) -> bool {
    let made = made.into_vec();
    let are_so = made.as_slice() == FIRST_ACCESSES.as_slice();
    drop(made);
    are_so
}

/// Whether a certificate is that of the first example over lists of these versions.
fn is_first(alloc: Global, certificate: Certificate, versions: &[u64]) -> bool {
    let is_printed = is_printed(alloc, &certificate.query, FIRST_QUERY);
    let is_versioned = certificate.versions.as_slice() == versions;
    let is_so = is_printed && is_versioned && has_numbers(&certificate);
    let Certificate {
        query,
        items,
        accesses,
        ..
    } = certificate;
    query.let_go();
    let are_so = has_item(items) & has_accesses(accesses);
    is_so && are_so
}

/// Whether a text is read as the certificate of the first example over lists of these versions.
fn is_read_as_first(alloc: Global, text: &[u8], versions: &[u64]) -> bool {
    match read_certificate(alloc, text) {
        Ok(certificate) => is_first(alloc, certificate, versions),
        Err(_) => false,
    }
}

/// The same of the first example with another text in place of one.
fn is_changed_to_first(alloc: Global, old: &str, new: &str, versions: &[u64]) -> bool {
    let Ok(text) = FIRST_TEXT.replace(alloc, old, new) else {
        return false;
    };
    let is_so = is_read_as_first(alloc, text.as_bytes(), versions);
    drop(text);
    is_so
}

/// Its lines may end by one byte or by two.
#[test]
fn reads_the_first_example(rt: HostRuntime) {
    let is_read = is_read_as_first(rt.alloc(), FIRST_TEXT.as_bytes(), &[0, 0]);
    let is_read_so_too = is_changed_to_first(rt.alloc(), "\n", "\r\n", &[0, 0]);
    holds(&rt, is_read && is_read_so_too);
}

/// A list without a line has version 0.
#[test]
fn reads_the_versions_of_lists(rt: HostRuntime) {
    let count = "count 3\n";
    let first = is_changed_to_first(rt.alloc(), count, "count 3\nversion A 7\n", &[7, 0]);
    let second = is_changed_to_first(rt.alloc(), count, "count 3\nversion B 1\n", &[0, 1]);
    holds(&rt, first && second);
}

/// The guarantee that a text is read with. None where it isn't read, or there is none.
fn guarantee_read(alloc: Global, text: &[u8]) -> Option<Guarantee> {
    let certificate = read_certificate(alloc, text).ok()?;
    let guarantee = certificate.guarantee;
    certificate.let_go();
    guarantee
}

/// The first number is the factor's upper one.
#[test]
fn reads_both_numbers(rt: HostRuntime) {
    let text =
        b"certificate 1\nquery top 1 by A using early 1\ncount 1\nanswer 2 3 3\nguarantee 4 3\nstop depth 1 sorted 1 random 0 cost 1\ns A 2 3\nend\n";
    let read = guarantee_read(rt.alloc(), text);
    holds(&rt, read == Some(Guarantee { p: 4, q: 3 }));
}
