//! One connection of a query server.

ghost use Rattle.std.specs.Prelude.{◌≡◌, [], false};
ghost use Rattle.fetcher.specs.SlotTables.{MayServe};
ghost use Rattle.wire.specs.Sparing.{HoldsRequest, ReadsSparingly};
ghost use Rattle.server_conn.specs.Entries.{view_in, MayAnswer};
ghost use Rattle.query_run.specs.Advancing.{KnowsAll};
ghost use Rattle.server_conn.specs.Answers.{Remembers};
ghost use Rattle.server_conn.specs.Connections.{WorkerState, Ends, IsRepliedTo, IsLineReplied};

use super::answers::Answers;
use super::asked::line_asked;
use super::line::tell_line;
use super::opened::OpenedCatalog;
use fetcher::{Slot, SlotTable};
use http::StatusCode;
use keyed_lock::Pass;
use source_api::Source;
use source_pool::{Pool, PoolPass};
use std::alloc::Global;
use std::sync::Wait;
use tk_io::Link;
use wire::{ConnEnd, Head, Kind, read_request, refusal_of, refuse, send};

/// How a connection ended, and whether its line was refused since a source moved to another version.
#[derive(Clone, Copy)]
pub struct Turn {
    pub end: ConnEnd,
    pub moved: bool,
}

/// Answers one request through a pass of the pool, and writes one reply. The request's body isn't read, and once its whole head has come no
/// read is made. The call may wait.
///
/// The first of these decides the status:
/// 431 for a head with more bytes or lines than a request may have (`wire::read_request`); 400 for bytes
/// that are no request, or end before its head is whole; then, by the head, 405 for a method other than GET, 400 for a target that
/// doesn't begin with `/`, 404 for a path other than `/top` and 400 for a query part without `q`; 503 where no memory is left before
/// the reply is begun; and else 200.
///
/// With 200 the body is the text of what becomes of the bytes of `q` as the first query line of an input, a certificate or a refusal: the
/// line is admitted over the catalog, and its query runs over the pool; what it needs of a source and no other thread fetches this thread fetches
/// itself, by turns over the slot table through its own pass of that. Then an answer is remembered, as `Answers` says. A line whose answer is remembered is
/// answered by that: no source is looked at, and what is remembered stays. Every other reply says its reason, but that one to the method
/// HEAD has no body. All are plain text.
///
/// *Cost*: the text of the reply is made in memory before it is written, since its length stands before it. A line is compared with each
/// that is remembered, and copied before its query runs.
pub fn serve_conn<W: Wait, S: Source, L: Link>(
    rt: &W,
    alloc: Global,
    catalog: &OpenedCatalog,
    pool: &Pool,
    table: &SlotTable<S>,
    own: &mut Pass<Slot<S>>,
    pass: &mut PoolPass,
    answers: &mut Answers,
    link: &mut L,
) -> Turn
    requires serves { MayServe table.now pool.now own.old }
    requires fit { MayAnswer catalog.now pool.now pass.old }
    requires remembers { Remembers (view_in catalog.now) pass.old answers.old }
    ensures served { own.new ≡ own.old }
    ensures fit { MayAnswer catalog.now pool.now pass.new }
    ensures knows { KnowsAll pass.old pass.new }
    ensures remembers { Remembers (view_in catalog.now) pass.new answers.new }
    ensures ends { Ends (view_in catalog.now) (record {
      came = L.left link.old;
      held = L.held link.old;
      held_now = L.held link.new;
      read_faults = L.Intake.faults link.old;
      read_faults_now = L.Intake.faults link.new;
      write_faults = L.Sink.faults link.old;
      write_faults_now = L.Sink.faults link.new;
      before = record { holds = pass.old; answers = answers.old };
      now = record { holds = pass.new; answers = answers.new };
    }) result }
    ensures sparing { ReadsSparingly HoldsRequest [] (L.Intake.pieces link.old) (L.Intake.pieces link.new) }
{
    match read_request(alloc, link) {
        Ok(head) => {
            let turn = answer_head(
                rt, alloc, catalog, pool, table, own, pass, answers, link, &head,
            );
            drop(head);
            turn
        }
        Err(fault) => match refusal_of(fault) {
            Some(why) => unmoved(refuse(link, why, false)),
            None => unmoved(ConnEnd::LinkFault),
        },
    }
}

/// Replies to a request with this head.
fn answer_head<W: Wait, S: Source, L: Link>(
    rt: &W,
    alloc: Global,
    catalog: &OpenedCatalog,
    pool: &Pool,
    table: &SlotTable<S>,
    own: &mut Pass<Slot<S>>,
    pass: &mut PoolPass,
    answers: &mut Answers,
    link: &mut L,
    head: &Head,
) -> Turn
    requires serves { MayServe table.now pool.now own.old }
    requires fit { MayAnswer catalog.now pool.now pass.old }
    requires remembers { Remembers (view_in catalog.now) pass.old answers.old }
    ensures served { own.new ≡ own.old }
    ensures fit { MayAnswer catalog.now pool.now pass.new }
    ensures knows { KnowsAll pass.old pass.new }
    ensures remembers { Remembers (view_in catalog.now) pass.new answers.new }
    ensures apart { L.Sink.aside link.new ≡ L.Sink.aside link.old }
    ensures incoming { (L.left link.new ≡ L.left link.old) × (L.Intake.faults link.new ≡ L.Intake.faults link.old) × (L.Intake.pieces link.new ≡ L.Intake.pieces link.old) }
    ensures replied { IsRepliedTo (view_in catalog.now) head.now.method head.now.target.items
        (record { holds = pass.old; answers = answers.old }) (record { holds = pass.new; answers = answers.new })
        (L.held link.old) (L.held link.new) (L.Sink.faults link.old) (L.Sink.faults link.new) result }
{
    let is_head = head.is_head();
    match line_asked(alloc, answers.route(), head) {
        Ok(line) => {
            let bytes = line.as_str().as_bytes();
            let turn = answer_line(
                rt, alloc, catalog, pool, table, own, pass, answers, link, bytes, is_head,
            );
            drop(line);
            turn
        }
        Err(why) => unmoved(refuse(link, why, is_head)),
    }
}

/// Replies to a request for a query line: by the answer that is remembered of it, or by what is told of it now.
fn answer_line<W: Wait, S: Source, L: Link>(
    rt: &W,
    alloc: Global,
    catalog: &OpenedCatalog,
    pool: &Pool,
    table: &SlotTable<S>,
    own: &mut Pass<Slot<S>>,
    pass: &mut PoolPass,
    answers: &mut Answers,
    link: &mut L,
    line: &[u8],
    is_head: bool,
) -> Turn
    requires serves { MayServe table.now pool.now own.old }
    requires fit { MayAnswer catalog.now pool.now pass.old }
    requires remembers { Remembers (view_in catalog.now) pass.old answers.old }
    ensures served { own.new ≡ own.old }
    ensures fit { MayAnswer catalog.now pool.now pass.new }
    ensures knows { KnowsAll pass.old pass.new }
    ensures remembers { Remembers (view_in catalog.now) pass.new answers.new }
    ensures apart { L.Sink.aside link.new ≡ L.Sink.aside link.old }
    ensures incoming { (L.left link.new ≡ L.left link.old) × (L.Intake.faults link.new ≡ L.Intake.faults link.old) × (L.Intake.pieces link.new ≡ L.Intake.pieces link.old) }
    ensures replied { IsLineReplied (view_in catalog.now) line.now is_head
        (record { holds = pass.old; answers = answers.old }) (record { holds = pass.new; answers = answers.new })
        (L.held link.old) (L.held link.new) (L.Sink.faults link.old) (L.Sink.faults link.new) result }
{
    if let Some(text) = answers.find(line) {
        return unmoved(send(link, StatusCode::OK, Kind::Text, Some(text)));
    }
    let Ok(copy) = Vec::from_slice(alloc, line) else {
        return unmoved(refuse(link, wire::Refusal::NoMemory, is_head));
    };
    match tell_line(rt, alloc, catalog, pool, table, own, pass, line) {
        Ok(told) => {
            let end = send(link, StatusCode::OK, Kind::Text, Some(told.text.as_slice()));
            let moved = told.moved;
            answers.keep(copy, told);
            Turn { end, moved }
        }
        Err(why) => unmoved(refuse(link, why, is_head)),
    }
}

/// The end of a connection with no source that moved.
fn unmoved(end: ConnEnd) -> Turn
    ensures { result ≡ record { end = end; moved = false } }
{
    Turn { end, moved: false }
}
