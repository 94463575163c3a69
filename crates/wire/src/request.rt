//! The heads of requests.

ghost use Rattle.std.specs.Prelude.{◌≡◌, ◌≤◌, [], true, false, codes, bytes_eq, IfOk, IfErr, IfSome, length};
ghost use Rattle.httparse.specs.Grammar.{IsRequestHead, print_request};
ghost use Rattle.httparse.specs.Spans.{IsRequestWithin, IsRequestOf};
ghost use Rattle.wire.specs.Asking.{SaysRequest};
ghost use Rattle.wire.specs.Heads.{AnswersRequest, PassesRequest};
ghost use Rattle.wire.specs.Parts.{Finds};
ghost use Rattle.wire.specs.LinkTold.{Counts};
ghost use Rattle.wire.specs.Sparing.{HoldsRequest, ReadsSparingly};
ghost use Rattle.wire.specs.declared.fault.WireFault.TheVariants.{BadMessage};

use super::WireFault;
use super::feed::Feed;
use super::lines::keeps_host_rule;
use super::part::{Found, MessagePart, take_part};
use http::Method;
use httparse::spans::{EMPTY_HEADER_SPAN, HeaderSpan, RequestSpans, parse_request};
use httparse::{Error, Status};
use std::alloc::{AllocError, Global};
use tk_io::Link;
use topk_base::{MAX_HEAD, MAX_HEADERS};

/// The head of a request: its method and its target, as they came.
#[derive(Drop)]
pub struct Head {
    /// The method, as `GET`.
    pub method: Method,
    /// The target, as `/lists/A/size`.
    pub target: Vec<u8>,
}

impl Head {
    /// Whether the method is GET.
    pub fn is_get(&self) -> bool
        ensures { result ≡ bytes_eq self.now.method (codes "GET") }
    {
        self.method == Method::GET
    }

    /// Whether the method is HEAD.
    pub fn is_head(&self) -> bool
        ensures { result ≡ bytes_eq self.now.method (codes "HEAD") }
    {
        self.method == Method::HEAD
    }
}

/// The head of a request, and whether it keeps the rule on Host lines.
#[derive(Drop)]
pub(crate) struct Asked {
    head: Head,
    has_host: bool,
}

/// Reads the head of a request. Its body isn't read, and once the whole head has come no read is made.
///
/// A head that breaks the rule on Host lines is no message: a request of HTTP/1.1 has one such line, a
/// request of HTTP/1.0 at most one, and its value has only letters, digits and `-._~%!$&'()*+,;=:[]`.
pub fn read_request<L: Link>(alloc: Global, link: &mut L) -> Result<Head, WireFault>
    ensures answers { IfSome (L.left link.old) (λ bytes. AnswersRequest bytes result) }
    ensures cause { Counts (L.Intake.faults link.old) (L.Intake.faults link.new) result }
    ensures apart { L.Intake.aside link.new ≡ L.Intake.aside link.old }
    ensures outgoing { (L.held link.new ≡ L.held link.old) × (L.Sink.faults link.new ≡ L.Sink.faults link.old) }
    ensures sparing { ReadsSparingly HoldsRequest [] (L.Intake.pieces link.old) (L.Intake.pieces link.new) }
{
    let mut feed = Feed::new(alloc);
    let asked = take_part::<RequestHead, L>(alloc, link, &mut feed);
    drop(feed);
    match asked {
        Ok(asked) => with_host(asked),
        Err(fault) => Err(fault),
    }
}

/// The head, where it keeps the rule on Host lines.
fn with_host(asked: Asked) -> Result<Head, WireFault>
    ensures kept { IfOk result (λ head. (asked.has_host ≡ true) × (head ≡ asked.head)) }
    ensures broken { IfErr result (λ fault. (asked.has_host ≡ false) × (fault ≡ BadMessage)) }
{
    let Asked { head, has_host } = asked;
    if has_host {
        Ok(head)
    } else {
        drop(head);
        Err(WireFault::BadMessage)
    }
}

/// The head of a request, as a kind of part.
struct RequestHead;

impl MessagePart for RequestHead {
    ghost use Rattle.topk_base.specs.declared.TheConstants.{MAX_HEAD};
    ghost use Rattle.std.proofs.Common.{inl, refl};
    ghost use Rattle.httparse.specs.Grammar as grammar;

    type Said = Asked;

    const LIMIT: u32 = MAX_HEAD;

    ghost LIMIT = { MAX_HEAD };

    ghost Tree = { grammar.RequestHead };

    ghost Valid = { IsRequestHead };

    ghost print = { print_request };

    ghost Says = { SaysRequest };

    ghost Passes = { PassesRequest };

    ghost beyond = { λ bytes passes. inl (refl, passes) };

    fn find(alloc: Global, came: &[u8]) -> Result<Option<Found<Asked>>, WireFault> {
        let mut lines = [EMPTY_HEADER_SPAN; MAX_HEADERS];
        match parse_request(came, &mut lines) {
            Ok(Status::Complete(spans)) => request_of(alloc, came, &lines, &spans),
            Ok(Status::Partial) => Ok(None),
            Err(Error::TooManyHeaders) => Err(WireFault::TooLong {
                limit: MAX_HEADERS as u32,
            }),
            Err(_) => Err(WireFault::BadMessage),
        }
    }
}

/// What the head says that these spans cover.
fn request_of(
    alloc: Global,
    came: &[u8],
    lines: &[HeaderSpan],
    spans: &RequestSpans,
) -> Result<Option<Found<Asked>>, WireFault>
    requires few { length lines.now ≤ MAX_HEADERS }
    requires within { IsRequestWithin came.now lines.now spans.now }
    requires reads { IsRequestOf came.now lines.now spans.now }
    ensures { Finds IsRequestHead print_request SaysRequest PassesRequest came.now result }
{
    if spans.len > MAX_HEAD as usize {
        return Err(WireFault::TooLong { limit: MAX_HEAD });
    }
    let has_host = keeps_host_rule(came, &lines[..spans.headers], spans.version);
    let method = method_of(alloc, spans.method.of(came))?;
    let target = Vec::from_slice(alloc, spans.path.of(came))?;
    let head = Head { method, target };
    Ok(Some(Found {
        len: spans.len,
        part: Asked { head, has_host },
    }))
}

/// The method that a token names. A long one takes memory.
fn method_of(alloc: Global, token: &[u8]) -> Result<Method, AllocError>
    ensures { IfOk result (λ method. method ≡ token.now) }
{
    match Method::from_bytes(alloc, token) {
        Ok(method) => Ok(method),
        Err(_) => Err(AllocError),
    }
}
