//! Links that come to a port, and what is left of them.

ghost use Rattle.std.specs.Prelude.{All, IfOk};
ghost use Rattle.tk_io.specs.LinksInMemory.{IsUnused};

use std::alloc::Global;
use tk_io::{Ended, MemLink, MemPort, Memory};

/// The parts of a message, one after another.
pub(crate) type Parts = &'static [&'static [u8]];

/// A link that comes: the request, which of its writes fail, and what it is to have taken when it is given back.
#[derive(Clone, Copy)]
pub(crate) struct Visit {
    pub(crate) request: Parts,
    pub(crate) write_fails: &'static [u64],
    pub(crate) reply: Parts,
}

/// The bytes of the parts.
pub(crate) fn joined(alloc: Global, parts: &[&[u8]]) -> Result<Vec<u8>, Memory> {
    let mut bytes = Vec::new(alloc);
    for part in parts {
        bytes.extend_from_slice(part)?;
    }
    Ok(bytes)
}

/// A link that gives these parts, seven bytes in one read.
fn link(alloc: Global, visit: &Visit) -> Result<MemLink, Memory>
    ensures { IfOk result IsUnused }
{
    let bytes = joined(alloc, visit.request)?;
    MemLink::make(alloc, &bytes, 7, 1_000, &[], visit.write_fails, None)
}

/// The links of these visits, in their order.
fn links(alloc: Global, visits: &[Visit]) -> Result<Vec<MemLink>, Memory>
    ensures { IfOk result (λ links. All IsUnused links.items) }
{
    let mut links = Vec::new(alloc);
    for visit in visits {
        links.push(link(alloc, visit)?)?;
    }
    Ok(links)
}

/// A port to which these come, whose calls of these numbers fail.
pub(crate) fn port_of(alloc: Global, visits: &[Visit], fails: &[u64]) -> Option<MemPort> {
    let Ok(links) = links(alloc, visits) else {
        return None;
    };
    MemPort::make(alloc, links, fails).ok()
}

/// Whether a link that was given back took what the visit says.
fn took(alloc: Global, ended: &Ended, visit: &Visit) -> bool {
    let Ok(reply) = joined(alloc, visit.reply) else {
        return false;
    };
    let is_so = ended.taken() == reply.as_slice();
    drop(reply);
    is_so && ended.write_faults() == visit.write_fails.len() as u64
}

/// Whether so many of these links were given back, and each took what its visit says.
pub(crate) fn all_took(alloc: Global, port: &MemPort, visits: &[Visit], count: usize) -> bool {
    let closed = port.closed();
    if closed.len() != count {
        return false;
    }
    for (ended, visit) in closed.iter().zip(visits.iter()) {
        if !took(alloc, ended, visit) {
            return false;
        }
    }
    true
}
