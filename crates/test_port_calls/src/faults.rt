//! Nodes that serve nothing, or that end before all have come.

use super::cases::{CATALOG, Case, LISTS, NODE, Row, SOURCES, first_wrong};
use super::links::Visit;
use super::none_is_wrong;
use command_line::Status;

/// A link that asks for the size.
const SIZE: &[Visit] = &[Visit {
    request: &[b"GET /lists/A/size HTTP/1.1\r\nHost: h\r\n\r\n"],
    write_fails: &[],
    reply: &[
        b"HTTP/1.1 200 OK\r\nContent-Type: application/json\r\n",
        b"Content-Length: 11\r\nConnection: close\r\n\r\n{\"count\":3}",
    ],
}];

/// A name that isn't in the catalog, a text that is none, a place at which there is no source, a port that doesn't listen, one that fails
/// at its first link, and one that fails behind it.
static NODES: [Row; 6] = [
    Row {
        case: Case {
            words: &["node", CATALOG, "C", "--at", "1"],
            catalog: LISTS,
            sources: SOURCES,
            visits: SIZE,
            fails: &[],
        },
        status: Status::Partial,
        text: "refused node UnknownList C\n",
        served: 0,
        taken: 0,
    },
    Row {
        case: Case {
            words: NODE,
            catalog: "name,place,random\nA,a,maybe\n",
            sources: SOURCES,
            visits: SIZE,
            fails: &[],
        },
        status: Status::BadCatalog,
        text: "refused catalog CatalogLine 2\n",
        served: 0,
        taken: 0,
    },
    Row {
        case: Case {
            words: NODE,
            catalog: LISTS,
            sources: &[],
            visits: SIZE,
            fails: &[],
        },
        status: Status::OpenFault,
        text: "",
        served: 0,
        taken: 0,
    },
    Row {
        case: Case {
            words: NODE,
            catalog: LISTS,
            sources: SOURCES,
            visits: SIZE,
            fails: &[1],
        },
        status: Status::PortFault,
        text: "",
        served: 0,
        taken: 1,
    },
    Row {
        case: Case {
            words: NODE,
            catalog: LISTS,
            sources: SOURCES,
            visits: SIZE,
            fails: &[2],
        },
        status: Status::PortFault,
        text: "",
        served: 0,
        taken: 1,
    },
    Row {
        case: Case {
            words: NODE,
            catalog: LISTS,
            sources: SOURCES,
            visits: SIZE,
            fails: &[3],
        },
        status: Status::PortFault,
        text: "",
        served: 1,
        taken: 1,
    },
];

#[test]
fn ends_by_its_faults(rt: HostRuntime) {
    none_is_wrong(&rt, first_wrong(rt.alloc(), &NODES));
}
