//! What the links of a node get.

use super::cases::{CATALOG, Case, LISTS, NODE, ONE, Row, SOURCES, first_wrong};
use super::links::Visit;
use super::none_is_wrong;
use command_line::Status;

/// The front of a reply with an answer, a line of the others, and the end of each head.
const OK: &[u8] = b"HTTP/1.1 200 OK\r\nContent-Type: application/json\r\n";

const PLAIN: &[u8] = b"Content-Type: text/plain\r\n";

const CLOSE: &[u8] = b"Connection: close\r\n\r\n";

/// The size, a page, a grade, an object that isn't there, a list that isn't the node's, and a method that isn't taken.
const VISITS: &[Visit] = &[
    Visit {
        request: &[b"GET /lists/A/size HTTP/1.1\r\nHost: h\r\n\r\n"],
        write_fails: &[],
        reply: &[OK, b"Content-Length: 11\r\n", CLOSE, b"{\"count\":3}"],
    },
    Visit {
        request: &[b"GET /lists/A/page?from=1&count=1 HTTP/1.1\r\nHost: h\r\n\r\n"],
        write_fails: &[],
        reply: &[
            OK,
            b"Content-Length: 18\r\n",
            CLOSE,
            b"{\"rows\":[[2,800]]}",
        ],
    },
    Visit {
        request: &[b"GET /lists/A/grade?object=3 HTTP/1.1\r\nHost: h\r\n\r\n"],
        write_fails: &[],
        reply: &[OK, b"Content-Length: 13\r\n", CLOSE, b"{\"grade\":100}"],
    },
    Visit {
        request: &[b"GET /lists/A/grade?object=4 HTTP/1.1\r\nHost: h\r\n\r\n"],
        write_fails: &[],
        reply: &[OK, b"Content-Length: 14\r\n", CLOSE, b"{\"grade\":null}"],
    },
    Visit {
        request: &[b"GET /lists/B/size HTTP/1.1\r\nHost: h\r\n\r\n"],
        write_fails: &[],
        reply: &[
            b"HTTP/1.1 404 Not Found\r\n",
            PLAIN,
            b"Content-Length: 10\r\n",
            CLOSE,
            b"Not Found\n",
        ],
    },
    Visit {
        request: &[b"POST /lists/A/size HTTP/1.1\r\nHost: h\r\n\r\n"],
        write_fails: &[],
        reply: &[
            b"HTTP/1.1 405 Method Not Allowed\r\n",
            PLAIN,
            b"Allow: GET\r\nContent-Length: 19\r\n",
            CLOSE,
            b"Method Not Allowed\n",
        ],
    },
    Visit {
        request: &[],
        write_fails: &[],
        reply: &[
            b"HTTP/1.1 400 Bad Request\r\n",
            PLAIN,
            b"Content-Length: 12\r\n",
            CLOSE,
            b"Bad Request\n",
        ],
    },
];

/// A link whose first write fails, and one behind it.
const BROKEN: &[Visit] = &[
    Visit {
        request: &[b"GET /lists/A/size HTTP/1.1\r\nHost: h\r\n\r\n"],
        write_fails: &[1],
        reply: &[],
    },
    Visit {
        request: &[b"GET /lists/A/grade?object=2 HTTP/1.1\r\nHost: h\r\n\r\n"],
        write_fails: &[],
        reply: &[OK, b"Content-Length: 13\r\n", CLOSE, b"{\"grade\":800}"],
    },
];

/// The size and a page at version 7.
const AT_7: &[Visit] = &[
    Visit {
        request: &[b"GET /lists/A/size HTTP/1.1\r\nHost: h\r\n\r\n"],
        write_fails: &[],
        reply: &[
            OK,
            b"Content-Length: 23\r\n",
            CLOSE,
            b"{\"count\":3,\"version\":7}",
        ],
    },
    Visit {
        request: &[b"GET /lists/A/page?from=0&count=1 HTTP/1.1\r\nHost: h\r\n\r\n"],
        write_fails: &[],
        reply: &[
            OK,
            b"Content-Length: 30\r\n",
            CLOSE,
            b"{\"rows\":[[1,900]],\"version\":7}",
        ],
    },
];

/// All links of a port that ends, a link that fails, the first of two, none, and replies that state a version.
static NODES: [Row; 5] = [
    Row {
        case: Case {
            words: NODE,
            catalog: LISTS,
            sources: SOURCES,
            visits: VISITS,
            fails: &[],
        },
        status: Status::Done,
        text: "served 7\n",
        served: 7,
        taken: 1,
    },
    Row {
        case: Case {
            words: NODE,
            catalog: LISTS,
            sources: SOURCES,
            visits: BROKEN,
            fails: &[],
        },
        status: Status::Done,
        text: "served 2\n",
        served: 2,
        taken: 1,
    },
    Row {
        case: Case {
            words: ONE,
            catalog: LISTS,
            sources: SOURCES,
            visits: VISITS,
            fails: &[],
        },
        status: Status::Done,
        text: "served 1\n",
        served: 1,
        taken: 1,
    },
    Row {
        case: Case {
            words: NODE,
            catalog: LISTS,
            sources: SOURCES,
            visits: &[],
            fails: &[],
        },
        status: Status::Done,
        text: "served 0\n",
        served: 0,
        taken: 1,
    },
    Row {
        case: Case {
            words: &["node", CATALOG, "A", "--at", "1", "--version", "7"],
            catalog: LISTS,
            sources: SOURCES,
            visits: AT_7,
            fails: &[],
        },
        status: Status::Done,
        text: "served 2\n",
        served: 2,
        taken: 1,
    },
];

#[test]
fn each_link_gets_its_reply(rt: HostRuntime) {
    none_is_wrong(&rt, first_wrong(rt.alloc(), &NODES));
}
