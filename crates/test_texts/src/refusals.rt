//! Refusals, each as its line.

ghost use Rattle.std.specs.Prelude.{[], Some, IsTrue};
ghost use Rattle.std.specs.Option.{option_copied};
ghost use Rattle.cert_text.specs.declared.outcome.Outcome.TheVariants.{Refused};
ghost use Rattle.cert_text.specs.Outcome.{IsOutcome};

use super::let_go;
use cert_text::{Outcome, Refusal, write_outcome};
use query_text::{Query, read};
use std::alloc::Global;
use test_support::wrong_texts;
use tk_io::MemSink;

/// A query of two lists.
const QUERY: &[u8] = b"top 1 by sum(A,B) using ta";

/// What comes before a query runs, what its machine refuses, and what a source gives.
const ROWS: &[(&str, Refusal, &str)] = &[
    (
        "ManyQueries",
        Refusal::ManyQueries { limit: 64 },
        "refused 9 ManyQueries 64\n",
    ),
    (
        "NotOpened",
        Refusal::NotOpened { list: 0 },
        "refused 9 NotOpened A\n",
    ),
    (
        "TooLarge",
        Refusal::TooLarge {
            list: 1,
            count: 200_001,
        },
        "refused 9 TooLarge B 200001\n",
    ),
    (
        "CountsDiffer",
        Refusal::CountsDiffer {
            list: 0,
            n: 3,
            other: 1,
            m: 2,
        },
        "refused 9 CountsDiffer A 3 B 2\n",
    ),
    (
        "NoRandom",
        Refusal::NoRandom { list: 1 },
        "refused 9 NoRandom B\n",
    ),
    (
        "NoSorted",
        Refusal::NoSorted { list: 1 },
        "refused 9 NoSorted B\n",
    ),
    (
        "LongLine",
        Refusal::LongLine { limit: 4096 },
        "refused 9 LongLine 4096\n",
    ),
    ("Syntax", Refusal::Syntax { at: 5 }, "refused 9 Syntax 5\n"),
    ("Number", Refusal::Number { at: 4 }, "refused 9 Number 4\n"),
    (
        "TooManyLists",
        Refusal::TooManyLists { at: 30 },
        "refused 9 TooManyLists 30\n",
    ),
    (
        "BadTheta",
        Refusal::BadTheta { p: 7, q: 8 },
        "refused 9 BadTheta 7 8\n",
    ),
    (
        "TooManyNodes",
        Refusal::TooManyNodes { nodes: 65 },
        "refused 9 TooManyNodes 65\n",
    ),
    (
        "TooDeep",
        Refusal::TooDeep { depth: 9 },
        "refused 9 TooDeep 9\n",
    ),
    (
        "TooBig",
        Refusal::TooBig { node: 2 },
        "refused 9 TooBig 2\n",
    ),
    (
        "UnknownList",
        Refusal::UnknownList { list: 1 },
        "refused 9 UnknownList B\n",
    ),
    (
        "KAboveCount",
        Refusal::KAboveCount { k: 4, n: 3 },
        "refused 9 KAboveCount 4 3\n",
    ),
    (
        "Strangers",
        Refusal::Strangers {
            object: 7,
            count: 3,
        },
        "refused 9 Strangers 7 3\n",
    ),
    (
        "RoomFull",
        Refusal::RoomFull { room: 2 },
        "refused 9 RoomFull 2\n",
    ),
    (
        "OutOfOrder",
        Refusal::OutOfOrder {
            list: 0,
            place: 2,
            before: 500,
            after: 600,
        },
        "refused 9 OutOfOrder A 2 500 600\n",
    ),
    (
        "TooHigh",
        Refusal::TooHigh {
            list: 1,
            place: 1,
            grade: 1_000_001,
        },
        "refused 9 TooHigh B 1 1000001\n",
    ),
    (
        "Repeated",
        Refusal::Repeated {
            list: 0,
            object: 7,
            place: 3,
        },
        "refused 9 Repeated A 7 3\n",
    ),
    (
        "Clash",
        Refusal::Clash {
            list: 0,
            object: 2,
            sorted: 800,
            random: 850,
        },
        "refused 9 Clash A 2 800 850\n",
    ),
    (
        "Above",
        Refusal::Above {
            list: 0,
            object: 2,
            grade: 950,
            bottom: 900,
        },
        "refused 9 Above A 2 950 900\n",
    ),
    (
        "Missing",
        Refusal::Missing { list: 0, object: 3 },
        "refused 9 Missing A 3\n",
    ),
    (
        "ShortList",
        Refusal::ShortList {
            list: 0,
            stated: 5,
            got: 3,
        },
        "refused 9 ShortList A 5 3\n",
    ),
    (
        "AsksFull",
        Refusal::AsksFull { list: 1, kept: 2 },
        "refused 9 AsksFull B 2\n",
    ),
    (
        "Failed",
        Refusal::Failed { list: 0 },
        "refused 9 Failed A\n",
    ),
    (
        "Garbled",
        Refusal::Garbled { list: 1 },
        "refused 9 Garbled B\n",
    ),
    (
        "Moved",
        Refusal::Moved {
            list: 0,
            had: 7,
            now: 8,
        },
        "refused 9 Moved A 7 8\n",
    ),
];

/// Whether the list that a refusal names, if it names one, is a list of the query.
fn is_of_query(query: &Query, refusal: Refusal) -> bool
    ensures { IsTrue result → IsOutcome (Some query.now) [] (Refused refusal) }
{
    match refusal {
        Refusal::CountsDiffer { list, other, .. } => {
            u32::from(list) < query.names.len() && u32::from(other) < query.names.len()
        }
        Refusal::UnknownList { list }
        | Refusal::NotOpened { list }
        | Refusal::TooLarge { list, .. }
        | Refusal::NoRandom { list }
        | Refusal::NoSorted { list }
        | Refusal::OutOfOrder { list, .. }
        | Refusal::TooHigh { list, .. }
        | Refusal::Repeated { list, .. }
        | Refusal::Clash { list, .. }
        | Refusal::Above { list, .. }
        | Refusal::Missing { list, .. }
        | Refusal::ShortList { list, .. }
        | Refusal::AsksFull { list, .. }
        | Refusal::Failed { list }
        | Refusal::Garbled { list }
        | Refusal::Moved { list, .. } => u32::from(list) < query.names.len(),
        _ => true,
    }
}

/// What is written of the refusal of the query line with this number.
fn written(alloc: Global, number: u64, query: Option<&Query>, refusal: Refusal) -> Option<Vec<u8>>
    requires { IsOutcome (option_copied query) [] (Refused refusal) }
{
    let Ok(mut out) = MemSink::make(alloc, 40, &[]) else {
        return None;
    };
    let outcome = Outcome::Refused(refusal);
    let is_ok = write_outcome(&mut out, number, query, 3, &[], &outcome).is_ok();
    let_go(outcome);
    let text = if is_ok {
        out.taken().to_vec(alloc).ok()
    } else {
        None
    };
    drop(out);
    text
}

/// The same of a refusal of the query of two lists.
fn written_of_two(alloc: Global, refusal: &Refusal) -> Option<Vec<u8>> {
    let query = read(alloc, QUERY).ok()?;
    let text = if is_of_query(&query, *refusal) {
        written(alloc, 9, Some(&query), *refusal)
    } else {
        None
    };
    query.let_go();
    text
}

/// The refusal of a line that is no query.
const NO_QUERY: &[(&str, u64, &str)] = &[("a line that is no query", 1, "refused 1 Syntax 0\n")];

/// The same of a line with this number that is no query.
fn written_of_none(alloc: Global, number: &u64) -> Option<Vec<u8>> {
    written(alloc, *number, None, Refusal::Syntax { at: 0 })
}

#[test]
fn writes_each_refusal(rt: HostRuntime) {
    assert_eq!(rt; wrong_texts(&rt, rt.alloc(), ROWS, written_of_two), 0);
    assert_eq!(rt; wrong_texts(&rt, rt.alloc(), NO_QUERY, written_of_none), 0);
}
