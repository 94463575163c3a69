//! Calls of the dial and of its links that fail, each in turn, and what is counted then.

ghost use Rattle.std.specs.Prelude.{All, IfOk};
ghost use Rattle.tk_io.specs.LinksInMemory.{IsUnused};

use super::holds;
use super::stepping::{Call, Gives, call_gives, source_over, took};
use http_source::HttpSource;
use source_api::{Counts, FailKind, Source, Trouble};
use std::alloc::Global;
use tk_io::{MemDial, MemLink, Memory};

/// A page of one row at version 7.
const PAGE: &[u8] = b"HTTP/1.1 200 OK\r\n\r\n{\"rows\":[[1,900]],\"version\":7}";

/// A size at version 7.
const SIZE: &[u8] = b"HTTP/1.1 200 OK\r\n\r\n{\"count\":1,\"version\":7}";

/// A grade at version 7.
const GRADE: &[u8] = b"HTTP/1.1 200 OK\r\n\r\n{\"grade\":900,\"version\":7}";

/// Links that bring a size, a page whose second read fails, a page on which the first write fails, a page with room for 10
/// bytes of the request, a page, and a grade.
fn links(alloc: Global) -> Result<Vec<MemLink>, Memory>
    ensures { IfOk result (λ links. All IsUnused links.items) }
{
    let size = MemLink::make(alloc, SIZE, 100, 1_000, &[], &[], None)?;
    let unread = MemLink::make(alloc, PAGE, 10, 1_000, &[2], &[], None)?;
    let unwritten = MemLink::make(alloc, PAGE, 100, 1_000, &[], &[1], None)?;
    let narrow = MemLink::make(alloc, PAGE, 100, 10, &[], &[], None)?;
    let page = MemLink::make(alloc, PAGE, 100, 1_000, &[], &[], None)?;
    let grade = MemLink::make(alloc, GRADE, 100, 1_000, &[], &[], None)?;
    Ok(vec![in alloc; size, unread, unwritten, narrow, page, grade]?)
}

/// A source over these links, whose second and fourth dials fail.
fn source(alloc: Global) -> Option<HttpSource<MemDial>> {
    let links = links(alloc).ok()?;
    let dial = MemDial::make(alloc, links, &[2, 4]).ok()?;
    source_over(alloc, dial)
}

/// Whether so many calls for a page fail.
fn pages_fail(alloc: Global, source: &mut HttpSource<MemDial>, calls: u32) -> bool {
    let mut is_so = true;
    for _ in 0..calls {
        let fails = call_gives(
            alloc,
            source,
            Call::Page(0, 1),
            Gives::Ends(Trouble::Fail(FailKind::Failed)),
        );
        is_so = is_so && fails;
    }
    is_so
}

/// Whether the calls fail where a call of the dial or of its link does, and only there: the dial, a read, the dial, a write,
/// and for want of room; and once no link is left.
fn fails_in_turn(alloc: Global, source: &mut HttpSource<MemDial>) -> bool {
    call_gives(alloc, source, Call::Size, Gives::Count(1))
        && pages_fail(alloc, source, 5)
        && call_gives(alloc, source, Call::Page(0, 1), Gives::Rows(&[(1, 900)]))
        && call_gives(alloc, source, Call::Grade(1), Gives::Graded(Some(900)))
        && call_gives(
            alloc,
            source,
            Call::Size,
            Gives::Ends(Trouble::Fail(FailKind::Failed)),
        )
        && source.version() == 7
}

/// Whether each link was given back, with what it took of its request.
fn left_no_link(alloc: Global, source: &HttpSource<MemDial>) -> bool {
    let closed = source.dial().closed();
    let page = b"/page?from=0&count=1".as_slice();
    closed.len() == 6
        && took(alloc, closed.get(0), b"/size", 1_000, (0, 0))
        && took(alloc, closed.get(1), page, 1_000, (1, 0))
        && took(alloc, closed.get(2), page, 0, (0, 1))
        && took(alloc, closed.get(3), page, 10, (0, 1))
        && took(alloc, closed.get(4), page, 1_000, (0, 0))
        && took(alloc, closed.get(5), b"/grade?object=1", 1_000, (0, 0))
}

#[test]
fn faults_are_told(rt: HostRuntime) {
    let alloc = rt.alloc();
    let Some(mut source) = source(alloc) else {
        holds(&rt, false);
        return;
    };
    let fails = fails_in_turn(alloc, &mut source);
    let closes = left_no_link(alloc, &source);
    let counted = source.counted();
    drop(source);
    holds(&rt, fails);
    holds(&rt, closes);
    assert_eq!(rt;
        counted,
        Counts {
            faults: 6,
            garbles: 0,
            moves: 0,
            rows_given: 1,
            grades_given: 1,
        }
    );
}
