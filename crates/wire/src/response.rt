//! Responses.

ghost use Rattle.std.specs.Prelude.{◌≡◌, ◌≤◌, [], Some, IfSome, length};
ghost use Rattle.httparse.specs.Grammar.{IsResponseHead, print_response};
ghost use Rattle.httparse.specs.Spans.{IsResponseWithin, IsResponseOf};
ghost use Rattle.wire.specs.Parts.{Finds};
ghost use Rattle.wire.specs.Responses.{is_interim, AnswersResponse, PassesHead};
ghost use Rattle.wire.specs.Sparing.{HoldsBody, HoldsResponse, ReadsSparingly};
ghost use Rattle.wire.specs.Steps.{SaysResponse, AnswersBody};
ghost use Rattle.wire.specs.LinkTold.{told, Counts};
ghost use Rattle.wire.specs.declared.framing.Framing.TheVariants.{Chunked, Length, ToEnd};

use super::chunks::{Trailers, take_bytes, take_chunks};
use super::feed::Feed;
use super::framing::framing_of;
use super::part::{Found, MessagePart, take_part};
use super::{Framing, WireFault};
use httparse::spans::{EMPTY_HEADER_SPAN, HeaderSpan, ResponseSpans, parse_response};
use httparse::{Error, Status};
use std::alloc::Global;
use tk_io::{Intake, Link};
use topk_base::{MAX_BODY, MAX_HEAD, MAX_HEADERS};

/// A response: its status, and its body where the status is 200.
#[derive(Drop)]
pub struct Reply {
    /// The status, 000 to 999 but for 100 to 199.
    pub status: u16,
    /// The body, which is there exactly for the status 200.
    pub body: Option<Vec<u8>>,
}

/// What the head of a response says of the body.
#[derive(Clone, Copy, Debug, PartialEq, Eq)]
pub(crate) struct Start {
    status: u16,
    framing: Option<Framing>,
}

/// The status of a response that has a body to be read.
const OK: u16 = 200;

/// Reads a response. The body is read for the status 200 alone. An interim response (100 to 199) is no
/// message.
///
/// Once the whole response has come no read is made, so a peer that keeps its link open isn't waited for: a
/// head of another status than 200 is whole alone, and a body by its framing, which is never where the end
/// of the connection ends it.
pub fn read_response<L: Link>(alloc: Global, link: &mut L) -> Result<Reply, WireFault>
    ensures answers { IfSome (L.left link.old) (λ bytes. AnswersResponse bytes result) }
    ensures cause { Counts (L.Intake.faults link.old) (L.Intake.faults link.new) result }
    ensures apart { L.Intake.aside link.new ≡ L.Intake.aside link.old }
    ensures outgoing { (L.held link.new ≡ L.held link.old) × (L.Sink.faults link.new ≡ L.Sink.faults link.old) }
    ensures sparing { ReadsSparingly HoldsResponse [] (L.Intake.pieces link.old) (L.Intake.pieces link.new) }
{
    let mut feed = Feed::new(alloc);
    let reply = read_into(alloc, link, &mut feed);
    drop(feed);
    reply
}

/// Reads a response, over what came.
fn read_into<R: Intake>(alloc: Global, link: &mut R, feed: &mut Feed) -> Result<Reply, WireFault>
    ensures answers { IfSome (told feed.old (R.left link.old)) (λ bytes. AnswersResponse bytes result) }
    ensures cause { Counts (R.faults link.old) (R.faults link.new) result }
    ensures apart { R.aside link.new ≡ R.aside link.old }
    ensures sparing { ReadsSparingly HoldsResponse feed.old (R.pieces link.old) (R.pieces link.new) }
{
    let start = take_part::<ResponseHead, R>(alloc, link, feed)?;
    if is_interim(start.status) {
        return Err(WireFault::BadMessage);
    }
    if start.status != OK {
        return Ok(Reply {
            status: start.status,
            body: None,
        });
    }
    let Some(framing) = start.framing else {
        return Err(WireFault::BadMessage);
    };
    let mut body = Vec::new(alloc);
    match take_body(alloc, link, feed, framing, &mut body) {
        Ok(()) => Ok(Reply {
            status: OK,
            body: Some(body),
        }),
        Err(fault) => {
            drop(body);
            Err(fault)
        }
    }
}

/// Whether a status is that of an interim response.
fn is_interim(status: u16) -> bool
    ensures { result ≡ is_interim status }
{
    status >= 100 && status <= 199
}

/// Takes the body by its framing.
fn take_body<R: Intake>(
    alloc: Global,
    link: &mut R,
    feed: &mut Feed,
    framing: Framing,
    body: &mut Vec<u8>,
) -> Result<(), WireFault>
    requires { body.old.items ≡ [] }
    ensures answers { IfSome (told feed.old (R.left link.old)) (λ bytes. AnswersBody framing bytes body.new.items result) }
    ensures cause { Counts (R.faults link.old) (R.faults link.new) result }
    ensures apart { R.aside link.new ≡ R.aside link.old }
    ensures sparing { ReadsSparingly (HoldsBody (Some framing)) feed.old (R.pieces link.old) (R.pieces link.new) }
{
    match framing {
        Framing::Chunked => take_chunked(alloc, link, feed, body),
        Framing::Length(count) => take_counted(link, feed, body, count),
        Framing::ToEnd => take_rest(link, feed, body),
    }
}

/// Takes a body in chunks, with the trailer lines behind it.
fn take_chunked<R: Intake>(
    alloc: Global,
    link: &mut R,
    feed: &mut Feed,
    body: &mut Vec<u8>,
) -> Result<(), WireFault>
    requires { body.old.items ≡ [] }
    ensures answers { IfSome (told feed.old (R.left link.old)) (λ bytes. AnswersBody Chunked bytes body.new.items result) }
    ensures cause { Counts (R.faults link.old) (R.faults link.new) result }
    ensures apart { R.aside link.new ≡ R.aside link.old }
    ensures sparing { ReadsSparingly (HoldsBody (Some Chunked)) feed.old (R.pieces link.old) (R.pieces link.new) }
{
    take_chunks(alloc, link, feed, body)?;
    take_part::<Trailers, R>(alloc, link, feed)?;
    Ok(())
}

/// Takes a body of so many bytes.
fn take_counted<R: Intake>(
    link: &mut R,
    feed: &mut Feed,
    body: &mut Vec<u8>,
    count: u64,
) -> Result<(), WireFault>
    requires { body.old.items ≡ [] }
    ensures answers { IfSome (told feed.old (R.left link.old)) (λ bytes. AnswersBody (Length count) bytes body.new.items result) }
    ensures cause { Counts (R.faults link.old) (R.faults link.new) result }
    ensures apart { R.aside link.new ≡ R.aside link.old }
    ensures sparing { ReadsSparingly (HoldsBody (Some (Length count))) feed.old (R.pieces link.old) (R.pieces link.new) }
{
    if count > MAX_BODY as u64 {
        return Err(WireFault::TooLong { limit: MAX_BODY });
    }
    take_bytes(link, feed, body, count as usize)?;
    Ok(())
}

/// Takes all that is left as the body.
fn take_rest<R: Intake>(link: &mut R, feed: &mut Feed, body: &mut Vec<u8>) -> Result<(), WireFault>
    requires { body.old.items ≡ [] }
    ensures answers { IfSome (told feed.old (R.left link.old)) (λ bytes. AnswersBody ToEnd bytes body.new.items result) }
    ensures cause { Counts (R.faults link.old) (R.faults link.new) result }
    ensures apart { R.aside link.new ≡ R.aside link.old }
    ensures sparing { ReadsSparingly (HoldsBody (Some ToEnd)) feed.old (R.pieces link.old) (R.pieces link.new) }
{
    while body.len() <= MAX_BODY as usize {
        let most = MAX_BODY as usize + 1 - body.len();
        if feed.pull(link, body, most)? == 0 {
            return Ok(());
        }
    }
    Err(WireFault::TooLong { limit: MAX_BODY })
}

/// The head of a response, as a kind of part.
struct ResponseHead;

impl MessagePart for ResponseHead {
    ghost use Rattle.topk_base.specs.declared.TheConstants.{MAX_HEAD};
    ghost use Rattle.std.proofs.Common.{inl, refl};
    ghost use Rattle.httparse.specs.Grammar as grammar;

    type Said = Start;

    const LIMIT: u32 = MAX_HEAD;

    ghost LIMIT = { MAX_HEAD };

    ghost Tree = { grammar.ResponseHead };

    ghost Valid = { IsResponseHead };

    ghost print = { print_response };

    ghost Says = { SaysResponse };

    ghost Passes = { PassesHead };

    ghost beyond = { λ bytes passes. inl (refl, passes) };

    fn find(_alloc: Global, came: &[u8]) -> Result<Option<Found<Start>>, WireFault> {
        let mut lines = [EMPTY_HEADER_SPAN; MAX_HEADERS];
        match parse_response(came, &mut lines) {
            Ok(Status::Complete(spans)) => start_of(came, &lines, &spans),
            Ok(Status::Partial) => Ok(None),
            Err(Error::TooManyHeaders) => Err(WireFault::TooLong {
                limit: MAX_HEADERS as u32,
            }),
            Err(_) => Err(WireFault::BadMessage),
        }
    }
}

/// What the head says that these spans cover.
fn start_of(
    came: &[u8],
    lines: &[HeaderSpan],
    spans: &ResponseSpans,
) -> Result<Option<Found<Start>>, WireFault>
    requires few { length lines.now ≤ MAX_HEADERS }
    requires within { IsResponseWithin came.now lines.now spans.now }
    requires reads { IsResponseOf came.now lines.now spans.now }
    ensures { Finds IsResponseHead print_response SaysResponse PassesHead came.now result }
{
    if spans.len > MAX_HEAD as usize {
        return Err(WireFault::TooLong { limit: MAX_HEAD });
    }
    let framing = framing_of(came, &lines[..spans.headers]);
    Ok(Some(Found {
        len: spans.len,
        part: Start {
            status: spans.code,
            framing,
        },
    }))
}
