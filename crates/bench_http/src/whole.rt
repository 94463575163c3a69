//! A response read as topk reads it: over a link, within the limits, and its body as a page.

use page_json::read_page;
use std::alloc::Global;
use tk_io::{MemLink, PIECE};
use wire::read_response;

/// How many rows the response says.
pub(crate) fn rows_of(alloc: Global, response: &[u8]) -> Option<usize> {
    let mut link = MemLink::make(alloc, response, PIECE as u32, 0, &[], &[], None).ok()?;
    let reply = read_response(alloc, &mut link).ok()?;
    let page = read_page(alloc, &reply.body?).ok()?;
    Some(page.body.len())
}
