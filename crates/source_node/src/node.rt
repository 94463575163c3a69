//! One connection of a node.

ghost use Rattle.std.specs.Prelude.{◌≡◌, [], Ok, Err};
ghost use Rattle.std.specs.Option.{unwrap_or};
ghost use Rattle.std.specs.Result.{result_map_both};
ghost use Rattle.wire.specs.Sparing.{HoldsRequest, ReadsSparingly};
ghost use Rattle.source_api.specs.Counting.{NoneFell};
ghost use Rattle.source_node.specs.Asking.{HasCount};
ghost use Rattle.source_node.specs.Serving.{seen};
ghost use Rattle.source_node.specs.Connections.{Ends, Serves, Serving, IsRepliedTo};

use super::answer::{ask, write_answer};
use super::{Asked, ListRoutes, asked_of};
use http::StatusCode;
use source_api::{FailKind, Source, Trouble};
use std::alloc::Global;
use tk_io::Link;
use wire::{ConnEnd, Head, Kind, Refusal, read_request, refusal_of, refuse, send};

/// Serves one request on the list of these routes, and writes one reply. The request's body isn't read, and once its whole head has come
/// no read is made.
///
/// The first of these decides the status:
/// 503 where no memory is left while the request is read;
/// 431 for a head with more bytes or lines than a request may have (`wire::read_request`); 400 for bytes
/// that are no request, or end before its head is whole; then, by the head, 405, 400 or 404 as
/// [`asked_of`] says; 503 where no memory is left while the answer is made; 500 where the source fails,
/// is garbled, or states another version; and else 200, with the answer in JSON. Every other reply says
/// its reason in plain text, but that one to the method HEAD has no body. When memory runs out isn't
/// told, so 503 may come to any request.
///
/// An answer states `version`, or where that is None the version that the source has at hand after it
/// was asked. The source is asked only where 200, 500 or 503 is the reply, and for nothing else than what the
/// route names: the size, the grade, or the rows from a place on, page by page until all are there that
/// were asked for, or an empty page came.
pub fn node_conn<S: Source, L: Link>(
    alloc: Global,
    routes: &ListRoutes,
    version: Option<u64>,
    source: &mut S,
    link: &mut L,
) -> ConnEnd
    ensures list { S.list source.new ≡ S.list source.old }
    ensures states { S.states source.new ≡ S.states source.old }
    ensures later { NoneFell (S.counts source.old) (S.counts source.new) }
    ensures ends { Ends routes.now version (record {
      came = L.left link.old;
      held = L.held link.old;
      held_now = L.held link.new;
      read_faults = L.Intake.faults link.old;
      read_faults_now = L.Intake.faults link.new;
      write_faults = L.Sink.faults link.old;
      write_faults_now = L.Sink.faults link.new;
      source = seen (S.list source.old) (S.counts source.old) (S.calls source.old) (S.at_hand source.old) (S.states source.old);
      source_now = seen (S.list source.new) (S.counts source.new) (S.calls source.new) (S.at_hand source.new) (S.states source.new);
    }) result }
    ensures sparing { ReadsSparingly HoldsRequest [] (L.Intake.pieces link.old) (L.Intake.pieces link.new) }
{
    match read_request(alloc, link) {
        Ok(head) => {
            let end = answer_head(alloc, routes, version, source, link, &head);
            drop(head);
            end
        }
        Err(fault) => match refusal_of(fault) {
            Some(why) => refuse(link, why, false),
            None => ConnEnd::LinkFault,
        },
    }
}

/// Replies to a request with this head.
fn answer_head<S: Source, L: Link>(
    alloc: Global,
    routes: &ListRoutes,
    version: Option<u64>,
    source: &mut S,
    link: &mut L,
    head: &Head,
) -> ConnEnd
    ensures list { S.list source.new ≡ S.list source.old }
    ensures states { S.states source.new ≡ S.states source.old }
    ensures later { NoneFell (S.counts source.old) (S.counts source.new) }
    ensures apart { L.Sink.aside link.new ≡ L.Sink.aside link.old }
    ensures incoming { (L.left link.new ≡ L.left link.old) × (L.Intake.faults link.new ≡ L.Intake.faults link.old) × (L.Intake.pieces link.new ≡ L.Intake.pieces link.old) }
    ensures replied { IsRepliedTo routes.now version head.now.method head.now.target.items
        (seen (S.list source.old) (S.counts source.old) (S.calls source.old) (S.at_hand source.old) (S.states source.old))
        (seen (S.list source.new) (S.counts source.new) (S.calls source.new) (S.at_hand source.new) (S.states source.new))
        (L.held link.old) (L.held link.new) (L.Sink.faults link.old) (L.Sink.faults link.new) result }
{
    match serve(alloc, routes, version, source, head) {
        Ok(body) => {
            let end = send(link, StatusCode::OK, Kind::Json, Some(body.as_slice()));
            drop(body);
            end
        }
        Err(why) => refuse(link, why, head.is_head()),
    }
}

/// The body of the answer to a request with this head.
fn serve<S: Source>(
    alloc: Global,
    routes: &ListRoutes,
    version: Option<u64>,
    source: &mut S,
    head: &Head,
) -> Result<Vec<u8>, Refusal>
    ensures list { S.list source.new ≡ S.list source.old }
    ensures states { S.states source.new ≡ S.states source.old }
    ensures later { NoneFell (S.counts source.old) (S.counts source.new) }
    ensures serves { Serves routes.now version head.now.method head.now.target.items
        (seen (S.list source.old) (S.counts source.old) (S.calls source.old) (S.at_hand source.old) (S.states source.old))
        (seen (S.list source.new) (S.counts source.new) (S.calls source.new) (S.at_hand source.new) (S.states source.new))
        (result_map_both (λ body. body.items) (λ why. why) result) }
{
    match asked_of(alloc, routes, head) {
        Ok(asked) => serve_asked(alloc, version, source, asked),
        Err(why) => Err(why),
    }
}

/// The body of the answer to what is asked.
fn serve_asked<S: Source>(
    alloc: Global,
    version: Option<u64>,
    source: &mut S,
    asked: Asked,
) -> Result<Vec<u8>, Refusal>
    requires { HasCount asked }
    ensures list { S.list source.new ≡ S.list source.old }
    ensures states { S.states source.new ≡ S.states source.old }
    ensures later { NoneFell (S.counts source.old) (S.counts source.new) }
    ensures serves { Serving version asked
        (seen (S.list source.old) (S.counts source.old) (S.calls source.old) (S.at_hand source.old) (S.states source.old))
        (seen (S.list source.new) (S.counts source.new) (S.calls source.new) (S.at_hand source.new) (S.states source.new))
        (result_map_both (λ body. body.items) (λ why. why) result) }
{
    match ask(alloc, source, asked) {
        Ok(answer) => {
            let stated = stated_version(version, source.version());
            let text = write_answer(alloc, stated, &answer);
            drop(answer);
            match text {
                Ok(text) => Ok(text),
                Err(_) => Err(Refusal::NoMemory),
            }
        }
        Err(Trouble::Fail(FailKind::Memory)) => Err(Refusal::NoMemory),
        Err(_) => Err(Refusal::SourceFailed),
    }
}

/// The version that an answer states: the one that the node was told, or else the source's.
fn stated_version(told: Option<u64>, at_hand: u64) -> u64
    ensures { result ≡ unwrap_or told at_hand }
{
    told.unwrap_or(at_hand)
}
