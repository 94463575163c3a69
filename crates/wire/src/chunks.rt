//! Bodies in chunks.

ghost use Rattle.std.specs.Prelude.{◌≡◌, ◌≤◌, [], length, OnOk};
ghost use Rattle.httparse.specs.Ascii.{crlf_bytes};
ghost use Rattle.httparse.specs.Grammar.{IsChunkLine, print_chunk_line};
ghost use Rattle.wire.specs.Bodies.{AreTrailers, print_trailers, PassesLine, PassesTrailers};
ghost use Rattle.wire.specs.Sparing.{HoldsBytes, HoldsChunk, HoldsChunks, ReadsSparingly, OfRead};
ghost use Rattle.wire.specs.Steps.{SaysSize, SaysNothing, TakesBytes, TakesText, TakesChunk, TakesChunks};
ghost use Rattle.wire.specs.LinkTold.{told, Counts};

use super::WireFault;
use super::feed::Feed;
use super::part::{Found, MessagePart, take_part};
use httparse::spans::{EMPTY_HEADER_SPAN, parse_headers};
use httparse::{Error, Status, parse_chunk_size};
use std::alloc::Global;
use tk_io::Intake;
use topk_base::{MAX_BODY, MAX_CHUNK_LINE, MAX_HEAD, MAX_HEADERS};

/// Takes all chunks to the body, and the line of the last one.
pub(crate) fn take_chunks<R: Intake>(
    alloc: Global,
    link: &mut R,
    feed: &mut Feed,
    body: &mut Vec<u8>,
) -> Result<(), WireFault>
    requires { body.old.items ≡ [] }
    ensures takes { TakesChunks (told feed.old (R.left link.old)) (told feed.new (R.left link.new)) body.new.items result }
    ensures cause { Counts (R.faults link.old) (R.faults link.new) result }
    ensures apart { R.aside link.new ≡ R.aside link.old }
    ensures sparing { ReadsSparingly HoldsChunks feed.old (R.pieces link.old) (R.pieces link.new) }
    ensures came { OnOk result (OfRead (λ all rest. TakesChunks all rest body.new.items result) feed.old feed.new (R.pieces link.old) (R.pieces link.new)) }
{
    while take_chunk(alloc, link, feed, body)? {}
    Ok(())
}

/// Takes a chunk to the end of the body, or the line of the last one, and says whether it was a chunk.
fn take_chunk<R: Intake>(
    alloc: Global,
    link: &mut R,
    feed: &mut Feed,
    body: &mut Vec<u8>,
) -> Result<bool, WireFault>
    requires { length body.old.items ≤ MAX_BODY }
    ensures takes { TakesChunk (told feed.old (R.left link.old)) (told feed.new (R.left link.new)) body.old.items body.new.items result }
    ensures cause { Counts (R.faults link.old) (R.faults link.new) result }
    ensures apart { R.aside link.new ≡ R.aside link.old }
    ensures sparing { ReadsSparingly HoldsChunk feed.old (R.pieces link.old) (R.pieces link.new) }
    ensures came { OnOk result (OfRead (λ all rest. TakesChunk all rest body.old.items body.new.items result) feed.old feed.new (R.pieces link.old) (R.pieces link.new)) }
{
    let size = take_part::<ChunkLine, R>(alloc, link, feed)?;
    if size == 0 {
        return Ok(false);
    }
    if size > MAX_BODY as u64 - body.len() as u64 {
        return Err(WireFault::TooLong { limit: MAX_BODY });
    }
    take_bytes(link, feed, body, size as usize)?;
    take_line_end(link, feed)?;
    Ok(true)
}

/// The line of a chunk, as a kind of part. It says the size that it states.
struct ChunkLine;

impl MessagePart for ChunkLine {
    ghost use Rattle.topk_base.specs.declared.TheConstants.{MAX_CHUNK_LINE};
    ghost use Rattle.std.specs.Prelude.{refl};
    ghost use Rattle.httparse.specs.Grammar as grammar;

    type Said = u64;

    const LIMIT: u32 = MAX_CHUNK_LINE;

    ghost LIMIT = { MAX_CHUNK_LINE };

    ghost Tree = { grammar.ChunkLine };

    ghost Valid = { IsChunkLine };

    ghost print = { print_chunk_line };

    ghost Says = { SaysSize };

    ghost Passes = { PassesLine };

    ghost beyond = { λ bytes passes. (refl, passes) };

    fn find(_alloc: Global, came: &[u8]) -> Result<Option<Found<u64>>, WireFault> {
        match parse_chunk_size(came) {
            Ok(Status::Complete(found)) => {
                if found.0 > MAX_CHUNK_LINE as usize {
                    return Err(WireFault::TooLong {
                        limit: MAX_CHUNK_LINE,
                    });
                }
                Ok(Some(Found {
                    len: found.0,
                    part: found.1,
                }))
            }
            Ok(Status::Partial) => Ok(None),
            Err(_) => Err(WireFault::BadMessage),
        }
    }
}

/// Takes so many bytes to the end of the body.
pub(crate) fn take_bytes<R: Intake>(
    link: &mut R,
    feed: &mut Feed,
    body: &mut Vec<u8>,
    count: usize,
) -> Result<(), WireFault>
    ensures takes { TakesBytes count (told feed.old (R.left link.old)) (told feed.new (R.left link.new)) body.old.items body.new.items result }
    ensures cause { Counts (R.faults link.old) (R.faults link.new) result }
    ensures apart { R.aside link.new ≡ R.aside link.old }
    ensures sparing { ReadsSparingly (HoldsBytes count) feed.old (R.pieces link.old) (R.pieces link.new) }
    ensures came { OnOk result (OfRead (λ all rest. TakesBytes count all rest body.old.items body.new.items result) feed.old feed.new (R.pieces link.old) (R.pieces link.new)) }
{
    let mut left = count;
    while left > 0 {
        let pulled = feed.pull(link, body, left)?;
        if pulled == 0 {
            return Err(WireFault::BadMessage);
        }
        left -= pulled;
    }
    Ok(())
}

/// Takes the end of a line, CR and LF.
fn take_line_end<R: Intake>(link: &mut R, feed: &mut Feed) -> Result<(), WireFault>
    ensures takes { TakesText crlf_bytes (told feed.old (R.left link.old)) (told feed.new (R.left link.new)) result }
    ensures cause { Counts (R.faults link.old) (R.faults link.new) result }
    ensures apart { R.aside link.new ≡ R.aside link.old }
    ensures sparing { ReadsSparingly (HoldsBytes 2) feed.old (R.pieces link.old) (R.pieces link.new) }
    ensures came { OnOk result (OfRead (λ all rest. TakesText crlf_bytes all rest result) feed.old feed.new (R.pieces link.old) (R.pieces link.new)) }
{
    while feed.came().len() < 2 {
        if feed.fill(link)? == 0 {
            return Err(WireFault::BadMessage);
        }
    }
    if &feed.came()[..2] != b"\r\n".as_slice() {
        return Err(WireFault::BadMessage);
    }
    feed.take(2);
    Ok(())
}

/// The trailer lines behind the last chunk, with the empty line that ends them, as a kind of part.
pub(crate) struct Trailers;

impl MessagePart for Trailers {
    ghost use Rattle.topk_base.specs.declared.TheConstants.{MAX_HEAD};
    ghost use Rattle.std.proofs.Common.{inl, refl};
    ghost use Rattle.wire.specs.Bodies as bodies;

    type Said = ();

    const LIMIT: u32 = MAX_HEAD;

    ghost LIMIT = { MAX_HEAD };

    ghost Tree = { bodies.Trailers };

    ghost Valid = { AreTrailers };

    ghost print = { print_trailers };

    ghost Says = { SaysNothing };

    ghost Passes = { PassesTrailers };

    ghost beyond = { λ bytes passes. inl (refl, passes) };

    fn find(_alloc: Global, came: &[u8]) -> Result<Option<Found<()>>, WireFault> {
        let mut lines = [EMPTY_HEADER_SPAN; MAX_HEADERS];
        match parse_headers(came, &mut lines) {
            Ok(Status::Complete(found)) => {
                if found.0 > MAX_HEAD as usize {
                    return Err(WireFault::TooLong { limit: MAX_HEAD });
                }
                Ok(Some(Found {
                    len: found.0,
                    part: (),
                }))
            }
            Ok(Status::Partial) => Ok(None),
            Err(Error::TooManyHeaders) => Err(WireFault::TooLong {
                limit: MAX_HEADERS as u32,
            }),
            Err(_) => Err(WireFault::BadMessage),
        }
    }
}
