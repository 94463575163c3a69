//! Each fault of the streams in turn, on the first example and on a table that is made.

use super::drives::{one_into, one_of};
use bundle_calls::make;
use command_line::Status;
use std::alloc::Global;
use test_support::{FIRST_TEXT, wrong_rows};
use tk_io::{Failed, MemSink, Sink};

/// The bundle of the first example.
const BUNDLE: &[u8] =
    b"list A\n1,900\n2,800\n3,100\nlist B\n2,700\n3,600\n1,500\nquery top 1 by sum(A,B) using ta";

/// How many bytes the certificate has.
const LENGTH: usize = 186;

/// How a command ended, and how many bytes it wrote.
type Ends = Option<(Status, usize)>;

/// The call of the input that fails, if one does, and for how many bytes there is room; and how `one` ends.
const FAULTS: &[(&str, (&[u64], u32), Ends)] = &[
    (
        "the first read fails",
        (&[1], 200),
        Some((Status::ReadFault, 0)),
    ),
    (
        "the second read fails",
        (&[2], 200),
        Some((Status::ReadFault, 0)),
    ),
    (
        "the read at the end fails",
        (&[3], 200),
        Some((Status::ReadFault, 0)),
    ),
    ("there is no room", (&[], 0), Some((Status::WriteFault, 0))),
    (
        "there is room for one byte",
        (&[], 1),
        Some((Status::WriteFault, 1)),
    ),
    (
        "for a byte less than a line",
        (&[], 13),
        Some((Status::WriteFault, 13)),
    ),
    ("for a line", (&[], 14), Some((Status::WriteFault, 14))),
    (
        "for a byte less than all",
        (&[], 185),
        Some((Status::WriteFault, 185)),
    ),
    ("for all", (&[], 186), Some((Status::Done, 186))),
];

/// How `one` ends, which writes a front of the certificate. None where it writes something else.
fn ends(alloc: Global, given: &(&[u64], u32)) -> Ends {
    let (status, out) = one_of(alloc, BUNDLE, given.0, given.1)?;
    let written = out.taken().len();
    let is_front = FIRST_TEXT.as_bytes().starts_with(out.taken());
    drop(out);
    if is_front {
        Some((status, written))
    } else {
        None
    }
}

/// How `make` ends where its first write fails.
fn made_into_nothing(alloc: Global) -> Ends {
    let Ok(mut out) = MemSink::make(alloc, 200, &[1]) else {
        return None;
    };
    let status = make(alloc, 7, 4, 2, &mut out);
    let written = out.taken().len();
    drop(out);
    Some((status, written))
}

/// A sink that takes one byte in each call.
#[derive(Drop)]
struct ByteSink {
    sink: MemSink,
}

impl Sink for ByteSink {
    ghost use Rattle.std.specs.Prelude.{Some};

    ghost held = { λ b. Some b.sink.held };

    ghost faults = { λ b. b.sink.faults };

    fn write(&mut self, bytes: &[u8]) -> Result<usize, Failed> {
        match bytes {
            [first, ..] => self.sink.write(&[*first]),
            [] => self.sink.write(bytes),
        }
    }
}

/// Whether `one` ends in a fault of writing where the call behind so many bytes fails, and writes these; or in none, where
/// these are all.
fn ends_behind(alloc: Global, written: usize) -> bool {
    let failing = [(written as u64).saturating_add(1)];
    let Ok(sink) = MemSink::make(alloc, 186, &failing) else {
        return false;
    };
    let mut out = ByteSink { sink };
    let status = one_into(alloc, BUNDLE, &[], &mut out);
    let taken = out.sink.taken();
    let is_front = FIRST_TEXT.as_bytes().starts_with(taken) && taken.len() == written;
    drop(out);
    let expected = if written == LENGTH {
        Status::Done
    } else {
        Status::WriteFault
    };
    status == Some(expected) && is_front
}

/// The first number of bytes behind which the failing call ends otherwise.
fn first_behind(alloc: Global) -> Option<usize> {
    for written in 0..LENGTH + 1 {
        if !ends_behind(alloc, written) {
            return Some(written);
        }
    }
    None
}

/// Where nothing is read, where the room ends, and at each failing write.
#[test]
fn ends_at_each_fault(rt: HostRuntime) {
    assert_eq!(rt; wrong_rows(&rt, rt.alloc(), FAULTS, ends), 0);
    assert_eq!(rt; first_behind(rt.alloc()), None);
    assert_eq!(rt;
        made_into_nothing(rt.alloc()),
        Some((Status::WriteFault, 0))
    );
}
