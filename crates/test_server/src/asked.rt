//! Requests at a port in memory, one after another, and whether each gets its reply.

ghost use Rattle.std.specs.Prelude.{◌≡◌, ◌≤◌, All, IfSome, length};
ghost use Rattle.tk_io.specs.LinksInMemory.{IsUnused};

use super::hall::{link_of, new_share, serve, took};
use query_server::Served;
use std::alloc::Global;
use std::sync::Wait;
use std::thread::Threads;
use std::time::Clock;
use test_mem_source::Kind;
use test_mem_source::visits::Parts;
use tk_io::{MemLink, MemPort, Share};

/// A request, the writes of its link that fail, a reply, and whether the link takes the whole of it.
pub(crate) type Visit = (Parts, &'static [u64], Parts, bool);

/// Links, and where they leave what they took.
#[derive(Drop)]
struct Asked {
    links: Vec<MemLink>,
    shares: Vec<Share>,
}

/// A link for each request. None without memory.
fn ask_all(alloc: Global, visits: &[Visit]) -> Option<Asked>
    ensures unused { IfSome result (λ asked. All IsUnused asked.links.items) }
    ensures many { IfSome result (λ asked. length asked.shares.items ≡ length visits.now) }
{
    let Ok(mut links) = Vec::with_capacity(alloc, visits.len()) else {
        return None;
    };
    let Ok(mut shares) = Vec::with_capacity(alloc, visits.len()) else {
        return None;
    };
    for place in 0..visits.len() {
        let share = new_share(alloc)?;
        let link = link_of(alloc, visits[place].0, visits[place].1, &share)?;
        links.push_reserved(link);
        shares.push_reserved(share);
    }
    Some(Asked { links, shares })
}

/// Whether each link took the whole of its reply where it is to, and else didn't. None without memory.
fn all_took(alloc: Global, shares: &[Share], visits: &[Visit]) -> Option<bool>
    requires { length shares.now ≡ length visits.now }
{
    for place in 0..shares.len() {
        if took(alloc, &shares[place], visits[place].2)? != visits[place].3 {
            return Some(false);
        }
    }
    Some(true)
}

/// Whether a server whose list A is of this kind ends so that serves at most so many of these visits, and each gets its reply. The calls of the
/// port with these numbers fail.
pub(crate) fn ends<R: Threads + Wait + Clock + Sync>(
    rt: &R,
    alloc: Global,
    first: Kind,
    workers: u32,
    conns: u64,
    fails: &[u64],
    end: Served,
    visits: &[Visit],
) -> Option<bool>
    requires { (1 ≤ workers) × (workers ≤ 32) }
{
    let Asked { links, shares } = ask_all(alloc, visits)?;
    let Ok(mut port) = MemPort::make(alloc, links, fails) else {
        return None;
    };
    let served = serve(rt, alloc, first, workers, conns, &mut port)?;
    drop(port);
    let took = all_took(alloc, &shares, visits)?;
    Some(served == end && took)
}
