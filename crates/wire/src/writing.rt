//! Requests and replies that are written.

ghost use Rattle.std.specs.Prelude.{◌≡◌, ◌++◌, map, IfErr, Some, None, option_copied};
ghost use Rattle.tk_io.specs.Pieces.{Puts, Writes};
ghost use Rattle.wire.specs.Wording.{part_text};
ghost use Rattle.wire.specs.Writing.{joined, asking_text, request_text, reply_text, reason_of, type_of, allow_line};
ghost use Rattle.wire.specs.Refusals.{body_as};
ghost use Rattle.wire.specs.declared.fault.WireFault.TheVariants.{LinkFault};

use super::WireFault;
use http::StatusCode;
use tk_io::{Link, Put, Sink, Writer};

/// Where lists are served: a host, its port, and the path before the calls' names.
#[derive(Drop)]
pub struct Place {
    /// The host's name or address.
    pub host: String,
    /// The port's number.
    pub port: u16,
    /// The path, as `/lists/A`.
    pub path: String,
}

/// What a body is.
#[derive(Clone, Copy, Debug, PartialEq, Eq)]
pub enum Kind {
    /// `text/plain`
    Text,
    /// `application/json`
    Json,
}

/// A part of a text.
#[derive(Clone, Copy)]
pub(crate) enum Part<'t> {
    /// These bytes.
    Text(&'t [u8]),
    /// A number in decimal.
    Number(u64),
}

/// Writes the request for what stands under the path and the tail. After a failure a front of it was
/// written. Takes no memory.
pub fn write_request<L: Link>(link: &mut L, place: &Place, tail: &[u8]) -> Result<(), WireFault>
    ensures writes { Writes (L.held link.old) (L.held link.new) (L.Sink.faults link.old) (L.Sink.faults link.new) result (request_text place.now tail.now) }
    ensures fault { IfErr result (λ fault. fault ≡ LinkFault) }
    ensures apart { L.Sink.aside link.new ≡ L.Sink.aside link.old }
    ensures incoming { (L.left link.new ≡ L.left link.old) × (L.Intake.faults link.new ≡ L.Intake.faults link.old) × (L.Intake.pieces link.new ≡ L.Intake.pieces link.old) }
{
    let path = place.path.as_bytes();
    write_asked(link, place.host.as_bytes(), place.port, path, tail)
}

/// Writes the request to a host's port for what stands under the path and the tail.
fn write_asked<'t, K: Sink>(
    link: &mut K,
    host: &'t [u8],
    port: u16,
    path: &'t [u8],
    tail: &'t [u8],
) -> Result<(), WireFault>
    ensures writes { Writes (K.held link.old) (K.held link.new) (K.faults link.old) (K.faults link.new) result (asking_text host.now port path.now tail.now) }
    ensures fault { IfErr result (λ fault. fault ≡ LinkFault) }
    ensures apart { K.aside link.new ≡ K.aside link.old }
{
    let parts = [
        Part::Text(b"GET "),
        Part::Text(path),
        Part::Text(tail),
        Part::Text(b" HTTP/1.1"),
        Part::Text(b"\r\n"),
        Part::Text(b"Host: "),
        Part::Text(host),
        Part::Text(b":"),
        Part::Number(port as u64),
        Part::Text(b"\r\n"),
        Part::Text(b"Connection: close"),
        Part::Text(b"\r\n"),
        Part::Text(b"\r\n"),
    ];
    write_parts(link, &parts)
}

/// Writes the reply of a status, with a body or, as to a request with the method HEAD, without one and
/// without a line that says its length. After a failure a front of it was written. Takes no memory.
pub fn write_reply<L: Link>(
    link: &mut L,
    status: StatusCode,
    kind: Kind,
    body: Option<&[u8]>,
) -> Result<(), WireFault>
    ensures writes { Writes (L.held link.old) (L.held link.new) (L.Sink.faults link.old) (L.Sink.faults link.new) result (reply_text status kind (option_copied body.entry)) }
    ensures fault { IfErr result (λ fault. fault ≡ LinkFault) }
    ensures apart { L.Sink.aside link.new ≡ L.Sink.aside link.old }
    ensures incoming { (L.left link.new ≡ L.left link.old) × (L.Intake.faults link.new ≡ L.Intake.faults link.old) × (L.Intake.pieces link.new ≡ L.Intake.pieces link.old) }
{
    match body {
        Some(body) => write_whole(link, status, kind, body, b""),
        None => write_head(link, status, kind),
    }
}

/// Writes the reply that says the reason of a status in plain text, or to a request with the method HEAD the same without a body. After a
/// failure a front of it was written. Takes no memory.
pub(crate) fn write_reason<L: Link>(
    link: &mut L,
    status: StatusCode,
    is_head: bool,
) -> Result<(), WireFault>
    ensures writes { Writes (L.held link.old) (L.held link.new) (L.Sink.faults link.old) (L.Sink.faults link.new) result (reply_text status Kind.Text (body_as is_head status)) }
    ensures fault { IfErr result (λ fault. fault ≡ LinkFault) }
    ensures apart { L.Sink.aside link.new ≡ L.Sink.aside link.old }
    ensures incoming { (L.left link.new ≡ L.left link.old) × (L.Intake.faults link.new ≡ L.Intake.faults link.old) × (L.Intake.pieces link.new ≡ L.Intake.pieces link.old) }
{
    match is_head {
        true => write_head(link, status, Kind::Text),
        false => write_whole(link, status, Kind::Text, reason_of(status), b"\n"),
    }
}

/// Writes the reply of a status with a body in two parts.
fn write_whole<'t, K: Sink>(
    link: &mut K,
    status: StatusCode,
    kind: Kind,
    body: &'t [u8],
    end: &'t [u8],
) -> Result<(), WireFault>
    ensures writes { Writes (K.held link.old) (K.held link.new) (K.faults link.old) (K.faults link.new) result (reply_text status kind (Some (body.now ++ end.now))) }
    ensures fault { IfErr result (λ fault. fault ≡ LinkFault) }
    ensures apart { K.aside link.new ≡ K.aside link.old }
{
    let parts = [
        Part::Text(b"HTTP/1.1 "),
        Part::Number(status.as_u16() as u64),
        Part::Text(b" "),
        Part::Text(reason_of(status)),
        Part::Text(b"\r\n"),
        Part::Text(b"Content-Type: "),
        Part::Text(type_of(kind)),
        Part::Text(b"\r\n"),
        Part::Text(allow_line(status)),
        Part::Text(b"Content-Length: "),
        Part::Number((body.len() + end.len()) as u64),
        Part::Text(b"\r\n"),
        Part::Text(b"Connection: close"),
        Part::Text(b"\r\n"),
        Part::Text(b"\r\n"),
        Part::Text(body),
        Part::Text(end),
    ];
    write_parts(link, &parts)
}

/// Writes the reply of a status without a body.
fn write_head<K: Sink>(link: &mut K, status: StatusCode, kind: Kind) -> Result<(), WireFault>
    ensures writes { Writes (K.held link.old) (K.held link.new) (K.faults link.old) (K.faults link.new) result (reply_text status kind None) }
    ensures fault { IfErr result (λ fault. fault ≡ LinkFault) }
    ensures apart { K.aside link.new ≡ K.aside link.old }
{
    let parts = [
        Part::Text(b"HTTP/1.1 "),
        Part::Number(status.as_u16() as u64),
        Part::Text(b" "),
        Part::Text(reason_of(status)),
        Part::Text(b"\r\n"),
        Part::Text(b"Content-Type: "),
        Part::Text(type_of(kind)),
        Part::Text(b"\r\n"),
        Part::Text(allow_line(status)),
        Part::Text(b"Connection: close"),
        Part::Text(b"\r\n"),
        Part::Text(b"\r\n"),
    ];
    write_parts(link, &parts)
}

/// The reason of a status, which is empty where it has none.
fn reason_of(status: StatusCode) -> &'static [u8]
    ensures { result.now ≡ reason_of status }
{
    match status.canonical_reason() {
        Some(reason) => reason.as_bytes(),
        None => b"",
    }
}

/// The type of a body.
fn type_of(kind: Kind) -> &'static [u8]
    ensures { result.now ≡ type_of kind }
{
    match kind {
        Kind::Text => b"text/plain",
        Kind::Json => b"application/json",
    }
}

/// The line that says which method is allowed, with status 405 alone.
fn allow_line(status: StatusCode) -> &'static [u8]
    ensures { result.now ≡ allow_line status }
{
    if status == StatusCode::METHOD_NOT_ALLOWED {
        b"Allow: GET\r\n"
    } else {
        b""
    }
}

/// Writes these parts, one behind another.
fn write_parts<K: Sink>(link: &mut K, parts: &[Part]) -> Result<(), WireFault>
    ensures writes { Writes (K.held link.old) (K.held link.new) (K.faults link.old) (K.faults link.new) result (joined (map part_text parts.now)) }
    ensures fault { IfErr result (λ fault. fault ≡ LinkFault) }
    ensures apart { K.aside link.new ≡ K.aside link.old }
{
    let mut writer = Writer::make(link);
    put_parts(&mut writer, parts);
    match writer.end() {
        Ok(()) => Ok(()),
        Err(_) => Err(WireFault::LinkFault),
    }
}

/// Puts these parts behind the bytes that wait, one behind another.
fn put_parts<P: Put>(link: &mut P, parts: &[Part])
    ensures { Puts (P.at link.old) (P.at link.new) (joined (map part_text parts.now)) }
{
    for part in parts {
        put_part(link, *part);
    }
}

/// Puts a part behind the bytes that wait.
fn put_part<P: Put>(link: &mut P, part: Part)
    ensures { Puts (P.at link.old) (P.at link.new) (part_text part.entry) }
{
    match part {
        Part::Text(text) => link.put(text),
        Part::Number(number) => link.put_number(number),
    }
}
