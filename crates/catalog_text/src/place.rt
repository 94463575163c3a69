//! What the place of a list is.

ghost use Rattle.std.specs.Prelude.{◌≡◌, ℕ, List, Some, option_map, MatchOption};
ghost use Rattle.catalog_text.specs.Places.{is_remote, IsHost, IsPath, IsAddress, IsPathOrAddress, IsLocation};
ghost use Rattle.catalog_text.specs.Pieces.{port_in, host_and_port, authority_and_path, pieces_in, pieces_now, IsOf};
ghost use Rattle.topk_base.specs.Cuts.{cut_at};

use super::bytes::{is_host, is_path};
use std::str::from_utf8;
use topk_base::{cut_at, number_up_to, rest_after};

/// The port of an address that names none.
const HTTP_PORT: u16 = 80;

/// The address of a list that a server has: `http://HOST:PORT/PATH`, or without `:PORT` where that is 80.
#[derive(Clone, Copy, Debug)]
pub struct Address<'a> {
    /// The host's name or address: 1 to 128 ASCII letters, digits, `.` and `-`.
    pub host: &'a str,
    /// The port's number, from 1.
    pub port: u16,
    /// The path, as `/lists/A`: it begins with `/` and doesn't end with one.
    pub path: &'a str,
}

/// Where a list is.
#[derive(Clone, Copy, Debug)]
pub enum Location<'a> {
    /// In the file whose path the place is.
    File,
    /// At a server.
    Http(Address<'a>),
}

/// Where the list of a place is. A place that begins with `http://` is read as `http://HOST:PORT/PATH`:
/// the host is 1 to 128 ASCII letters, digits, `.` and `-`, the port a number from 1 to 65535, which is 80
/// where `:PORT` isn't there, and the path has letters, digits, `/`, `_`, `-` and `.`, begins with `/` and
/// doesn't end with it. Every other place is a file's path. None where a place begins with `http://` and
/// isn't of this form, or begins with `https://`. Takes no memory.
///
/// *Cost*: one pass over the place.
pub fn location_of(place: &str) -> Option<Location<'_>>
    ensures { MatchOption result (¬ (IsPathOrAddress place.now)) (IsLocation place.now) }
{
    let text = place.as_bytes();
    if !is_remote(text) {
        return Some(Location::File);
    }
    match address_of(text) {
        Some(address) => Some(Location::Http(address)),
        None => None,
    }
}

/// Whether a text begins as an address does.
fn is_remote(text: &[u8]) -> bool
    ensures { result ≡ is_remote text.now }
{
    text.starts_with(b"http://") || text.starts_with(b"https://")
}

/// The address that a text is.
fn address_of(text: &[u8]) -> Option<Address<'_>>
    ensures { MatchOption result ((host : List ℕ) (port : ℕ) (path : List ℕ) → ¬ (IsAddress text.now host port path))
        (λ address. IsAddress text.now address.host.now address.port address.path.now) }
{
    let Some(pieces) = pieces_in(text) else {
        return None;
    };
    match tested(pieces) {
        Some(address) => Some(address),
        None => None,
    }
}

/// The address of these pieces, where the host and the path are of the right form.
#[tactic(auto, using(crate::proofs::AddressLaws::host_is_text, crate::proofs::AddressLaws::path_is_text))]
fn tested(pieces: Pieces<'_>) -> Option<Address<'_>>
    ensures { MatchOption result (IsHost pieces.entry.host.now → IsPath pieces.entry.path.now → ⊥) (IsOf pieces.entry) }
{
    if !is_host(pieces.host) {
        return None;
    }
    if !is_path(pieces.path) {
        return None;
    }
    let Ok(host) = from_utf8(pieces.host) else {
        return None;
    };
    let Ok(path) = from_utf8(pieces.path) else {
        return None;
    };
    Some(Address {
        host,
        port: pieces.port,
        path,
    })
}

/// The pieces of an address, of which the host and the path aren't tested yet.
#[derive(Clone, Copy)]
pub(crate) struct Pieces<'a> {
    pub(crate) host: &'a [u8],
    pub(crate) port: u16,
    pub(crate) path: &'a [u8],
}

/// The pieces of what stands behind `http://`.
fn pieces_in(text: &[u8]) -> Option<Pieces<'_>>
    ensures { option_map pieces_now result ≡ pieces_in text.now }
{
    let rest = rest_after(b"http://", text)?;
    let (authority, path) = authority_and_path(rest)?;
    let (host, port) = host_and_port(authority)?;
    Some(Pieces { host, port, path })
}

/// What stands before the first `/`, and what stands from there on.
fn authority_and_path(rest: &[u8]) -> Option<(&[u8], &[u8])>
    ensures { option_map (λ parts. (parts.0.now, parts.1.now)) result ≡ authority_and_path rest.now }
{
    let Some((authority, _)) = cut_at(rest, b'/') else {
        return None;
    };
    Some((authority, &rest[authority.len()..]))
}

/// The host and the port before a path.
fn host_and_port(authority: &[u8]) -> Option<(&[u8], u16)>
    ensures { option_map (λ ported. (ported.0.now, ported.1)) result ≡ host_and_port authority.now (cut_at 58 authority.now) }
{
    let Some((host, port)) = cut_at(authority, b':') else {
        return Some((authority, HTTP_PORT));
    };
    let port = port_in(port)?;
    Some((host, port))
}

/// The port that a text spells.
fn port_in(text: &[u8]) -> Option<u16>
    ensures { result ≡ port_in text.now }
{
    match number_up_to(text, 65_535) {
        Some(number) if number >= 1 => Some(number as u16),
        _ => None,
    }
}
