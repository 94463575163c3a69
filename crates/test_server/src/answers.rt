//! Query lines that come to an outcome.

use super::none_is_wrong;
use super::server_visits::{NO_QUERY, OK, first_other};
use test_mem_source::visits::{CLOSE, Parts};

/// The end of a head.
const END: &[u8] = b" HTTP/1.1\r\nHost: h\r\n\r\n";

/// The best object by the sum of both lists, which was worked out by hand, and its certificate. At depth 2 nothing else can have more
/// than 1400.
const BEST: Parts = &[
    OK,
    b"Content-Length: 198\r\n",
    CLOSE,
    b"certificate 1\nquery top 1 by sum(A,B) using ta\ncount 3\nversion A 7\nanswer 2 1500 1500\n",
    b"stop depth 2 sorted 4 random 3 cost 7\n",
    b"s A 1 900\ns B 2 700\nr B 1 500\nr A 2 800\ns A 2 800\ns B 3 600\nr A 3 100\nend\n",
];

/// Lines that are answered, and lines that are refused before they run.
static LINES: &[(Parts, Parts)] = &[
    (&[b"GET /top?q=top+1+by+sum(A,B)+using+ta", END], BEST),
    (
        &[
            b"GET /top?q=top%201%20by%20sum%28A%2cB%29%20using%20ta",
            END,
        ],
        BEST,
    ),
    (
        &[
            b"GET http://h:80/top?x=1&q=top+1+by+sum(A,B)+using+ta&q=",
            END,
        ],
        BEST,
    ),
    (&[b"GET /top?q=", END], NO_QUERY),
    (&[b"GET /top?q", END], NO_QUERY),
    (&[b"GET http://h:80/top?q=", END], NO_QUERY),
    (
        &[b"GET /top?q=top+1+by+sum(A,E)+using+ta", END],
        &[
            OK,
            b"Content-Length: 24\r\n",
            CLOSE,
            b"refused 1 UnknownList E\n",
        ],
    ),
    (
        &[b"GET /top?q=top+1+by+sum(A,C)+using+ta", END],
        &[
            OK,
            b"Content-Length: 22\r\n",
            CLOSE,
            b"refused 1 NotOpened C\n",
        ],
    ),
    (
        &[b"GET /top?q=top+1+by+sum(A,D)+using+ta", END],
        &[
            OK,
            b"Content-Length: 28\r\n",
            CLOSE,
            b"refused 1 TooLarge D 300000\n",
        ],
    ),
    (
        &[b"GET /top?q=top+4+by+sum(A,B)+using+ta", END],
        &[
            OK,
            b"Content-Length: 26\r\n",
            CLOSE,
            b"refused 1 KAboveCount 4 3\n",
        ],
    ),
];

#[test]
fn a_line_gets_its_outcome(rt: HostRuntime) {
    none_is_wrong(&rt, first_other(&rt, rt.alloc(), LINES));
}

/// Lines whose queries are refused while they run.
static REFUSED: &[(Parts, Parts)] = &[
    // there is room for object 1, and the first row of B has another
    (
        &[b"GET /top?q=top+1+by+sum(A,B)+using+ta+room+1", END],
        &[
            OK,
            b"Content-Length: 21\r\n",
            CLOSE,
            b"refused 1 RoomFull 1\n",
        ],
    ),
];

#[test]
fn a_query_is_refused_while_it_runs(rt: HostRuntime) {
    none_is_wrong(&rt, first_other(&rt, rt.alloc(), REFUSED));
}
