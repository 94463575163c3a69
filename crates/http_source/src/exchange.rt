//! One request on one link, and what it comes to.

ghost use Rattle.std.specs.Prelude.{◌≡◌, ◌≤◌, ◌+◌, ℕ, List, [], Some, string_bytes, IfSome, IfOk, IfErr};
ghost use Rattle.tk_io.specs.Links.{IsFresh};
ghost use Rattle.source_api.specs.Counting.{IsNoMove};
ghost use Rattle.wire.specs.Responses.{AnswersResponse};
ghost use Rattle.wire.specs.LinkTold.{Counts};
ghost use Rattle.wire.specs.Sparing.{HoldsResponse, WasReadSparingly};
ghost use Rattle.wire.specs.Writing.{request_text};
ghost use Rattle.http_source.specs.Exchanges.{next_bytes, host_port, UsesLink, DialsOnce, FailsWith, IsUnanswered};
ghost use Rattle.http_source.specs.Asking.{TakesRequest, ok_body, body_in, AnswersBody};

use super::Memory;
use source_api::{FailKind, Trouble};
use std::alloc::Global;
use tk_io::{Dial, Link};
use wire::{Place, Reply, WireFault, a_reply_is_the_only_answer, read_response, write_request};

/// The status of a reply that has a body to be read.
const OK: u16 = 200;

/// Asks for what stands under the place's path and this tail, on one link to the place's host and port,
/// which is given back whatever comes, and of which no read is made once the whole response has come. The
/// answer is the body of a reply with status 200.
pub(crate) fn ask<D: Dial>(
    alloc: Global,
    dial: &mut D,
    place: &Place,
    tail: &[u8],
) -> Result<Vec<u8>, Trouble>
    ensures answers { IfSome (next_bytes (D.links dial.old)) (λ bytes. AnswersBody bytes result) }
    ensures unlinked { D.links dial.old ≡ Some [] → IsUnanswered result }
    ensures unmoved { IfErr result IsNoMove }
    ensures cause { FailsWith (D.faults dial.old) (D.faults dial.new) result }
    ensures later { D.faults dial.old ≤ D.faults dial.new }
    ensures dialled { DialsOnce (host_port place.now) (D.dialled dial.old) (D.dialled dial.new) result }
    ensures link { UsesLink (request_text place.now tail.now)
        (D.links dial.old) (D.links dial.new) (D.closed dial.old) (D.closed dial.new) result }
{
    a_reply_is_the_only_answer();
    let Ok(mut link) = dial.dial(place.host.as_str(), place.port) else {
        return Err(Trouble::Fail(FailKind::Failed));
    };
    let reply = talk(alloc, &mut link, place, tail);
    dial.hang_up(link);
    body_in(reply)
}

/// Asks with a tail that was made. Where memory was refused for the tail no link is taken.
pub(crate) fn ask_made<D: Dial>(
    alloc: Global,
    dial: &mut D,
    place: &Place,
    tail: Result<String, Memory>,
) -> Result<Vec<u8>, Trouble>
    ensures answers { IfSome (next_bytes (D.links dial.old)) (λ bytes. AnswersBody bytes result) }
    ensures unlinked { D.links dial.old ≡ Some [] → IsUnanswered result }
    ensures unmoved { IfErr result IsNoMove }
    ensures cause { FailsWith (D.faults dial.old) (D.faults dial.new) result }
    ensures later { D.faults dial.old ≤ D.faults dial.new }
    ensures dialled { DialsOnce (host_port place.now) (D.dialled dial.old) (D.dialled dial.new) result }
    ensures link { (text : List ℕ) → IfOk tail (λ made. string_bytes made ≡ text)
        → UsesLink (request_text place.now text) (D.links dial.old) (D.links dial.new) (D.closed dial.old) (D.closed dial.new) result }
{
    match tail {
        Ok(tail) => ask(alloc, dial, place, tail.as_bytes()),
        Err(_) => Err(Trouble::Fail(FailKind::Memory)),
    }
}

/// Writes the request on a link of which nothing was used, and reads the response.
fn talk<L: Link>(
    alloc: Global,
    link: &mut L,
    place: &Place,
    tail: &[u8],
) -> Result<Reply, WireFault>
    requires { IsFresh (L.held link.old) (L.Intake.faults link.old) (L.Sink.faults link.old) (L.Intake.pieces link.old) }
    ensures answers { IfSome (L.left link.old) (λ bytes. AnswersResponse bytes result) }
    ensures took { TakesRequest (L.held link.old) (L.held link.new) (request_text place.now tail.now) result }
    ensures cause { Counts 0 (L.Intake.faults link.new + L.Sink.faults link.new) result }
    ensures sparing { WasReadSparingly HoldsResponse (L.Intake.pieces link.new) }
{
    match write_request(link, place, tail) {
        Ok(()) => read_response(alloc, link),
        Err(fault) => Err(fault),
    }
}

/// The body of a reply with status 200, or why there is none.
fn body_in(reply: Result<Reply, WireFault>) -> Result<Vec<u8>, Trouble>
    ensures { result ≡ body_in reply }
{
    match reply {
        Ok(reply) => match ok_body(reply) {
            Some(body) => Ok(body),
            None => Err(Trouble::Fail(FailKind::Garbled)),
        },
        Err(WireFault::LinkFault) => Err(Trouble::Fail(FailKind::Failed)),
        Err(WireFault::Memory) => Err(Trouble::Fail(FailKind::Memory)),
        Err(_) => Err(Trouble::Fail(FailKind::Garbled)),
    }
}

/// The body of a reply with status 200.
fn ok_body(reply: Reply) -> Option<Vec<u8>>
    ensures { result ≡ ok_body reply }
{
    let Reply { status, body } = reply;
    if status == OK { body } else { None }
}
