//! Query lines over lists of which one has a name of one byte, and all others have another answer.

ghost use Rattle.std.specs.Prelude.{◌==◌, length, None, if◌then◌else◌};

use cert_text::Refusal;
use query_admission::{Admitted, ListInfo, Lists, admit};
use std::alloc::Global;

/// What a name of one byte finds, and what each other name finds.
#[derive(Drop)]
struct Two {
    short: Option<ListInfo>,
    long: Option<ListInfo>,
}

impl Lists for Two {
    ghost view = { λ two. record {
      listed = λ name. (if length name == 1 then two.short else two.long);
      told = λ name. None;
    } };

    fn find(&self, name: &[u8]) -> Option<ListInfo> {
        if name.len() == 1 {
            self.short
        } else {
            self.long
        }
    }
}

/// What a catalog has under a name.
#[derive(Clone, Copy)]
enum Under {
    /// No list.
    Nothing,
    /// A list that wasn't opened.
    Closed,
    /// A list of this many objects without random access.
    SortedOnly(u64),
    /// A list of this many objects with random access alone.
    RandomOnly(u64),
    /// A list of this many objects with both accesses.
    Both(u64),
}

/// What is found under a name.
fn listed(under: Under) -> Option<ListInfo> {
    let (size, random, sorted, source, version) = match under {
        Under::Nothing => return None,
        Under::Closed => (None, false, false, 0, 0),
        Under::SortedOnly(size) => (Some(size), false, true, 9, 3),
        Under::RandomOnly(size) => (Some(size), true, false, 8, 5),
        Under::Both(size) => (Some(size), true, true, 7, u64::MAX),
    };
    Some(ListInfo {
        size,
        random,
        sorted,
        source,
        version,
    })
}

/// A refusal by its name and its fields, with 0 for the fields that it hasn't.
type Told = (&'static str, [u64; 4]);

/// A query line, what stands under its names, and the refusal.
type Row = (Under, Under, u64, &'static [u8], Told);

const QUERY: &[u8] = b"top 4 by sum(A,BB) using ta";

/// Lines in the order of their refusals.
const ROWS: &[Row] = &[
    (
        Under::Nothing,
        Under::Nothing,
        65,
        b"top",
        ("ManyQueries", [64, 0, 0, 0]),
    ),
    (
        Under::Nothing,
        Under::Nothing,
        64,
        b"top",
        ("Syntax", [3, 0, 0, 0]),
    ),
    (
        Under::Closed,
        Under::Nothing,
        1,
        QUERY,
        ("UnknownList", [1, 0, 0, 0]),
    ),
    (
        Under::Both(200_001),
        Under::Closed,
        1,
        QUERY,
        ("NotOpened", [1, 0, 0, 0]),
    ),
    (
        Under::Both(3),
        Under::Both(200_001),
        1,
        QUERY,
        ("TooLarge", [1, 200_001, 0, 0]),
    ),
    (
        Under::Both(3),
        Under::SortedOnly(2),
        1,
        QUERY,
        ("CountsDiffer", [0, 3, 1, 2]),
    ),
    (
        Under::SortedOnly(3),
        Under::Both(3),
        1,
        QUERY,
        ("KAboveCount", [4, 3, 0, 0]),
    ),
    (
        Under::Both(4),
        Under::SortedOnly(4),
        1,
        QUERY,
        ("NoRandom", [1, 0, 0, 0]),
    ),
    (
        Under::Both(4),
        Under::SortedOnly(4),
        1,
        b"top 4 by sum(A,BB) using fa",
        ("NoRandom", [1, 0, 0, 0]),
    ),
    // The algorithms that read all lists in order, and the one that reads those that can be read.
    (
        Under::RandomOnly(4),
        Under::SortedOnly(4),
        1,
        QUERY,
        ("NoRandom", [1, 0, 0, 0]),
    ),
    (
        Under::Both(4),
        Under::RandomOnly(4),
        1,
        QUERY,
        ("NoSorted", [1, 0, 0, 0]),
    ),
    (
        Under::RandomOnly(4),
        Under::SortedOnly(4),
        1,
        b"top 4 by sum(BB,A) using nra",
        ("NoSorted", [1, 0, 0, 0]),
    ),
    (
        Under::RandomOnly(4),
        Under::RandomOnly(4),
        1,
        b"top 4 by sum(A,BB) using taz",
        ("NoSorted", [0, 0, 0, 0]),
    ),
    (
        Under::RandomOnly(4),
        Under::SortedOnly(4),
        1,
        b"top 4 by sum(A,BB) using taz",
        ("NoRandom", [1, 0, 0, 0]),
    ),
    (
        Under::RandomOnly(3),
        Under::RandomOnly(3),
        1,
        b"top 4 by sum(A,BB) using taz",
        ("KAboveCount", [4, 3, 0, 0]),
    ),
    // A factor of less than one comes before the lists are looked at.
    (
        Under::Nothing,
        Under::Nothing,
        1,
        b"top 4 by sum(A,BB) using theta 7/8",
        ("BadTheta", [7, 8, 0, 0]),
    ),
];

/// The name and the fields of a refusal of these rows.
fn told(refusal: Refusal) -> Told {
    match refusal {
        Refusal::ManyQueries { limit } => ("ManyQueries", [u64::from(limit), 0, 0, 0]),
        Refusal::Syntax { at } => ("Syntax", [u64::from(at), 0, 0, 0]),
        Refusal::UnknownList { list } => ("UnknownList", [u64::from(list), 0, 0, 0]),
        Refusal::NotOpened { list } => ("NotOpened", [u64::from(list), 0, 0, 0]),
        Refusal::TooLarge { list, count } => ("TooLarge", [u64::from(list), count, 0, 0]),
        Refusal::CountsDiffer { list, n, other, m } => {
            let lists = [
                u64::from(list),
                u64::from(n),
                u64::from(other),
                u64::from(m),
            ];
            ("CountsDiffer", lists)
        }
        Refusal::KAboveCount { k, n } => ("KAboveCount", [u64::from(k), u64::from(n), 0, 0]),
        Refusal::NoRandom { list } => ("NoRandom", [u64::from(list), 0, 0, 0]),
        Refusal::NoSorted { list } => ("NoSorted", [u64::from(list), 0, 0, 0]),
        Refusal::BadTheta { p, q } => ("BadTheta", [u64::from(p), u64::from(q), 0, 0]),
        _ => ("another one", [0; 4]),
    }
}

/// What is told of the refusal of a line, or None where it is ready.
fn told_of(admitted: &Admitted) -> Option<Told> {
    match admitted {
        Admitted::Ready(_) => None,
        Admitted::Refused { refusal, .. } => Some(told(*refusal)),
    }
}

/// Whether a line is refused so.
fn is_refused(alloc: Global, lists: &Two, line: u64, bytes: &[u8], refused: Told) -> bool {
    let Ok(admitted) = admit(alloc, lists, line, bytes) else {
        return false;
    };
    let is_so = told_of(&admitted) == Some(refused);
    drop(admitted);
    is_so
}

/// The number of the first row that comes to something else.
fn first_wrong(alloc: Global, rows: &[Row]) -> Option<usize> {
    for (number, (short, long, line, bytes, refused)) in rows.iter().enumerate() {
        let lists = Two {
            short: listed(*short),
            long: listed(*long),
        };
        if !is_refused(alloc, &lists, *line, *bytes, *refused) {
            return Some(number);
        }
    }
    None
}

#[test]
fn refuses_in_order(rt: HostRuntime) {
    assert_eq!(rt; first_wrong(rt.alloc(), ROWS), None);
}

/// Whether a line is ready with this count, these sources and lists of these versions.
fn is_ready(admitted: &Admitted, count: u32, sources: &[u32], versions: &[u64]) -> bool {
    match admitted {
        Admitted::Ready(ready) => {
            ready.count == count
                && ready.sources.as_slice() == sources
                && ready.versions.as_slice() == versions
        }
        Admitted::Refused { .. } => false,
    }
}

/// Whether a line is ready over lists of which the first and the second are read in order as told.
fn is_ready_so(admitted: &Admitted, first: bool, second: bool) -> bool {
    match admitted {
        Admitted::Ready(ready) => {
            let sorted = ready.sorted.as_slice();
            sorted.len() == 2 && sorted[0] == first && sorted[1] == second
        }
        Admitted::Refused { .. } => false,
    }
}

/// Whether a line that reads in order those lists that can be read so is ready.
fn is_admitted_so(alloc: Global) -> bool {
    let lists = Two {
        short: listed(Under::Both(4)),
        long: listed(Under::RandomOnly(4)),
    };
    let Ok(admitted) = admit(alloc, &lists, 1, b"top 4 by sum(BB,A) using taz") else {
        return false;
    };
    let is_so = is_ready_so(&admitted, false, true);
    drop(admitted);
    is_so
}

#[test]
fn admits_where_one_list_is_read(rt: HostRuntime) {
    assert!(rt; is_admitted_so(rt.alloc()));
}

/// Whether a line over the most objects is ready.
fn is_admitted(alloc: Global) -> bool {
    let lists = Two {
        short: listed(Under::SortedOnly(200_000)),
        long: listed(Under::Both(200_000)),
    };
    let Ok(admitted) = admit(alloc, &lists, 64, b"top 4 by sum(BB,A) using nra") else {
        return false;
    };
    let is_so = is_ready(&admitted, 200_000, &[7, 9], &[u64::MAX, 3]);
    drop(admitted);
    is_so
}

#[test]
fn admits(rt: HostRuntime) {
    assert!(rt; is_admitted(rt.alloc()));
}
