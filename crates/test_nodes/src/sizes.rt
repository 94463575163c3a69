//! Sizes: which bytes say one, and how they are written. What holds of any body, as its JSON and its version, is shown of these.

use super::bodies::Reads::{Nothing, Says};
use super::bodies::{Reads, is_refused};
use super::{holds, none_is_wrong};
use page_json::{read_size, write_size};
use std::alloc::Global;

/// Bytes, with the version and the size that they say.
static BODIES: &[(&[u8], Reads<u64>)] = &[
    (b"{\"count\":3}", Says(0, 3)),
    (b"{\"count\":0}", Says(0, 0)),
    (b" {\"count\" :\t3 }\r\n", Says(0, 3)),
    (b"{\"c\\u006funt\":3}", Says(0, 3)),
    // A number with a fraction, an exponent or a minus sign isn't whole, whatever its value is.
    (b"{\"count\":3.0}", Nothing),
    (b"{\"count\":1e2}", Nothing),
    (b"{\"count\":-1}", Nothing),
    (b"{\"count\":-0}", Nothing),
    (b"{\"count\":03}", Nothing),
    (b"{\"count\":+3}", Nothing),
    (b"{\"count\":18446744073709551615}", Says(0, u64::MAX)),
    (b"{\"count\":18446744073709551616}", Nothing),
    // Another value than a number.
    (b"{\"count\":null}", Nothing),
    (b"{\"count\":true}", Nothing),
    (b"{\"count\":\"3\"}", Nothing),
    (b"{\"count\":[3]}", Nothing),
    (b"{\"count\":{\"count\":3}}", Nothing),
    // No object, or not one that has the key.
    (b"", Nothing),
    (b"3", Nothing),
    (b"null", Nothing),
    (b"[{\"count\":3}]", Nothing),
    (b"{}", Nothing),
    (b"{\"Count\":3}", Nothing),
    (b"{\"rows\":[]}", Nothing),
    // No JSON.
    (b"{\"count\":", Nothing),
    (b"{\"count\":3", Nothing),
    (b"{\"count\":3,}", Nothing),
    (b"{count:3}", Nothing),
    (b"{\"count\":3}x", Nothing),
    (b"{\"count\":3}{\"count\":3}", Nothing),
    (b"\xEF\xBB\xBF{\"count\":3}", Nothing),
    // Other keys are free as long as the whole is JSON.
    (
        b"{\"note\":{\"count\":1},\"count\":3,\"more\":[1.5,null]}",
        Says(0, 3),
    ),
    (b"{\"note\":\"\\ud83d\\ude00\",\"count\":3}", Says(0, 3)),
    (b"{\"note\":\"\\ud83d\",\"count\":3}", Nothing),
    (b"{\"note\":\"\\ude00\",\"count\":3}", Nothing),
    (b"{\"note\":\"\xFF\",\"count\":3}", Nothing),
    (b"{\"note\":\"\n\",\"count\":3}", Nothing),
    (b"{\"note\":1e999,\"count\":3}", Nothing),
    // Of a key twice the last counts.
    (b"{\"count\":1,\"count\":2}", Says(0, 2)),
    (b"{\"count\":1.5,\"count\":2}", Says(0, 2)),
    (b"{\"count\":2,\"count\":1.5}", Nothing),
    (b"{\"version\":1,\"count\":3,\"version\":2}", Says(2, 3)),
    // The version is a whole number, or isn't there.
    (b"{\"count\":3,\"version\":7}", Says(7, 3)),
    (b"{\"version\":7,\"count\":3}", Says(7, 3)),
    (b"{\"count\":3,\"version\":0}", Says(0, 3)),
    (
        b"{\"count\":3,\"version\":18446744073709551615}",
        Says(u64::MAX, 3),
    ),
    (b"{\"count\":3,\"version\":18446744073709551616}", Nothing),
    (b"{\"count\":3,\"version\":-1}", Nothing),
    (b"{\"count\":3,\"version\":7.0}", Nothing),
    (b"{\"count\":3,\"version\":null}", Nothing),
    (b"{\"count\":3,\"version\":\"7\"}", Nothing),
    (b"{\"version\":7}", Nothing),
    (b"{\"count\":3,\"Version\":7}", Says(0, 3)),
];

/// Whether bytes are read as they are to be.
fn is_read(alloc: Global, bytes: &[u8], reads: Reads<u64>) -> bool {
    match (read_size(alloc, bytes), reads) {
        (Ok(said), Says(version, count)) => said.version == version && said.body == count,
        (Err(fault), Nothing) => is_refused(fault),
        _ => false,
    }
}

/// The place of the first bytes that are read as something else.
fn first_misread(alloc: Global, bodies: &[(&[u8], Reads<u64>)]) -> Option<usize> {
    for (place, (bytes, reads)) in bodies.iter().enumerate() {
        if !is_read(alloc, bytes, *reads) {
            return Some(place);
        }
    }
    None
}

#[test]
fn reads_sizes(rt: HostRuntime) {
    none_is_wrong(&rt, first_misread(rt.alloc(), BODIES));
}

/// A size beside so many arrays, one in the other.
fn nested(alloc: Global, arrays: usize) -> Option<Vec<u8>> {
    let mut text = Vec::from_slice(alloc, b"{\"count\":3,\"note\":").ok()?;
    let Ok(()) = text.resize(text.len().saturating_add(arrays), b'[') else {
        return None;
    };
    let Ok(()) = text.resize(text.len().saturating_add(arrays), b']') else {
        return None;
    };
    let Ok(()) = text.push(b'}') else {
        return None;
    };
    Some(text)
}

/// Whether a size beside so many arrays, one in the other, is read as this.
fn is_read_nested(alloc: Global, arrays: usize, reads: Reads<u64>) -> bool {
    let Some(text) = nested(alloc, arrays) else {
        return false;
    };
    let is_so = is_read(alloc, text.as_slice(), reads);
    drop(text);
    is_so
}

#[test]
fn nests_127_deep_at_most(rt: HostRuntime) {
    holds(&rt, is_read_nested(rt.alloc(), 126, Says(0, 3)));
    holds(&rt, is_read_nested(rt.alloc(), 127, Nothing));
}

/// A version and a size, with the body that says them.
static TEXTS: &[(u64, u64, &[u8])] = &[
    (0, 3, b"{\"count\":3}"),
    (7, 3, b"{\"count\":3,\"version\":7}"),
    (1, 0, b"{\"count\":0,\"version\":1}"),
    (
        u64::MAX,
        u64::MAX,
        b"{\"count\":18446744073709551615,\"version\":18446744073709551615}",
    ),
];

/// Whether a size is written as this text.
fn is_written(alloc: Global, version: u64, count: u64, text: &[u8]) -> bool {
    let Ok(written) = write_size(alloc, version, count) else {
        return false;
    };
    let is_so = written.as_slice() == text;
    drop(written);
    is_so
}

/// The place of the first size that is written otherwise.
fn first_miswritten(alloc: Global, texts: &[(u64, u64, &[u8])]) -> Option<usize> {
    for (place, (version, count, text)) in texts.iter().enumerate() {
        if !is_written(alloc, *version, *count, text) {
            return Some(place);
        }
    }
    None
}

#[test]
fn writes_sizes(rt: HostRuntime) {
    none_is_wrong(&rt, first_miswritten(rt.alloc(), TEXTS));
}
