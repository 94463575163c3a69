//! Each fault in turn: the catalog's text, the input, the output.

use super::fault_cases::{FaultyRun, FaultyShelf, first_wrong_fault};
use super::none_is_wrong;
use command_line::Status;
use test_mem_source::{Held, Kind};

const SOURCE: &Held = &Held {
    place: "a",
    rows: &[(1, 900), (2, 800)],
    kind: Kind::Honest,
};

/// A catalog of that source.
const ONE: Option<&str> = Some("name,place,random\nA,a,yes\n");

const LINE: &[u8] = b"top 1 by A using nra\n";

/// What is written of it.
const TEXT: &[u8] =
    b"certificate 1\nquery top 1 by A using nra\ncount 2\nanswer 1 900 900\nstop depth 1 sorted 1 random 0 cost 1\ns A 1 900\nend\n";

/// Its first bytes, as many as there is room for.
const FRONT: &[u8] = b"certificate 1\nquery ";

const DONE: FaultyRun = FaultyRun {
    piece: 50,
    failing_reads: &[],
    room: 1000,
    status: Status::Done,
    text: TEXT,
    given: 2,
};

/// The catalog can't be read, whether or not a read would fail.
const NOT_OPENED: FaultyRun = FaultyRun {
    piece: 50,
    failing_reads: &[1],
    room: 1000,
    status: Status::OpenFault,
    text: b"",
    given: 0,
};

const REFUSED: FaultyRun = FaultyRun {
    piece: 50,
    failing_reads: &[1],
    room: 1000,
    status: Status::BadCatalog,
    text: b"refused catalog CatalogLine 1\n",
    given: 0,
};

/// Nothing is asked of the source where the lines can't be read.
const NOT_READ: FaultyRun = FaultyRun {
    piece: 50,
    failing_reads: &[2],
    room: 1000,
    status: Status::ReadFault,
    text: b"",
    given: 0,
};

/// The same where a byte comes at a time.
const NOT_READ_BYTES: &[FaultyRun] = &[
    FaultyRun {
        piece: 1,
        failing_reads: &[1],
        ..NOT_READ
    },
    FaultyRun {
        piece: 1,
        failing_reads: &[2],
        ..NOT_READ
    },
    FaultyRun {
        piece: 1,
        failing_reads: &[3],
        ..NOT_READ
    },
];

const NOT_WRITTEN: FaultyRun = FaultyRun {
    piece: 50,
    failing_reads: &[],
    room: 20,
    status: Status::WriteFault,
    text: FRONT,
    given: 2,
};

static ROWS: [FaultyShelf; 5] = [
    // the catalog comes before the input: it is missed, or refused, before a read can fail
    FaultyShelf {
        catalog: None,
        failing_text: None,
        source: SOURCE,
        line: LINE,
        runs: &[NOT_OPENED],
    },
    FaultyShelf {
        catalog: Some("name,place\n"),
        failing_text: None,
        source: SOURCE,
        line: LINE,
        runs: &[REFUSED],
    },
    // one failed call for the catalog's text isn't for ever, and the source is put back with what it gave
    FaultyShelf {
        catalog: ONE,
        failing_text: Some(1),
        source: SOURCE,
        line: LINE,
        runs: &[NOT_OPENED, DONE],
    },
    // faults of the streams
    FaultyShelf {
        catalog: ONE,
        failing_text: None,
        source: SOURCE,
        line: LINE,
        runs: &[NOT_READ, NOT_WRITTEN],
    },
    FaultyShelf {
        catalog: ONE,
        failing_text: None,
        source: SOURCE,
        line: LINE,
        runs: NOT_READ_BYTES,
    },
];

#[test]
fn ends_at_each_fault(rt: HostRuntime) {
    none_is_wrong(&rt, first_wrong_fault(&rt, rt.alloc(), &ROWS));
}
