//! A dial that stands in memory.

ghost use Rattle.std.specs.Prelude.{◌≡◌, ◌<◌, ◌+◌, ◌∷◌, ◌++◌, ◌-◌, ◌^◌, ◌⊎◌, [], min, Some, None, Contains, IsErr, IfOk, OnErr, ◌↔◌, All};
ghost use Rattle.tk_io.specs.Faults.{HasCause};
ghost use Rattle.tk_io.specs.InMemory.{next_call};
ghost use Rattle.tk_io.specs.Links.{GivesFirst, IsFresh, ClosesOne, AddsFaults};
ghost use Rattle.tk_io.specs.LinksInMemory.{bytes_to_come, closed_of, failed_call, gave_link, IsUnused};

use super::mem_link::Ended;
use super::mem_links::MemLinks;
use super::{Dial, Failed, MemLink, Memory};
use std::alloc::Global;
use std::marker::Model;

/// A dial of links in memory, with calls that are to fail. It gives its links in their order to whatever
/// host is asked for.
///
/// Contracts see it as the record of the links that are to come, how many are out, what is left of those
/// that were given back, the numbers of the calls of `dial` that fail (from 1), how many there were, and
/// how many of them, and of the calls of the links that were given back, failed.
#[derive(Drop)]
pub struct MemDial {
    links: MemLinks,
}

impl Model for MemDial {
    ghost use Rattle.tk_io.specs.LinksInMemory.{Giving};

    ghost Value = { Giving };

    ghost view = { λ d. d.links };
}

impl MemDial {
    /// The dial of these links, in this order, whose calls with a number in `fails` fail. It had no call
    /// yet. The memory for what is left of the links is taken here. Where it is refused they are dropped.
    pub fn make(alloc: Global, links: Vec<MemLink>, fails: &[u64]) -> Result<MemDial, Memory>
        requires { All IsUnused links.items }
        ensures { IfOk result (λ d. d ≡ record {
          links = links.items;
          out = 0;
          closed = [];
          fails = fails.now;
          calls = 0;
          faults = 0;
        }) }
    {
        let links = MemLinks::make(alloc, links, fails)?;
        Ok(MemDial { links })
    }

    /// What is left of the links that were given back, in this order.
    pub fn closed(&self) -> &[Ended]
        ensures { result.now ≡ self.now.closed }
    {
        self.links.closed()
    }
}

impl Dial for MemDial {
    ghost use Rattle.std.specs.Prelude.{Some, ◌<◌};
    ghost use Rattle.tk_io.specs.LinksInMemory.{bytes_to_come};

    type L = MemLink;

    ghost links = { bytes_to_come };

    ghost closed = { λ d. Some d.closed };

    ghost faults = { λ d. d.faults };

    ghost may_close = { λ d. 0 < d.out };

    /// Fails exactly where the number of this call is among those that fail or no link is left, and else
    /// gives the first of the links to come.
    fn dial(&mut self, _host: &str, _port: u16) -> Result<MemLink, Failed>
        ensures given { IfOk result (λ link.
            GivesFirst (bytes_to_come self.old) (bytes_to_come self.new) (Some link.incoming.left) (Some link.outgoing.held)) }
        ensures fresh { IfOk result (λ link. IsFresh (Some link.outgoing.held) link.incoming.faults link.outgoing.faults None) }
        ensures out { IfOk result (λ link. 0 < self.new.out) }
        ensures kept { OnErr result (bytes_to_come self.new ≡ bytes_to_come self.old) }
        ensures closed { self.new.closed ≡ self.old.closed }
        ensures cause { HasCause self.old.faults self.new.faults result }
        ensures fails { IsErr result ↔ (Contains self.old.fails (next_call self.old.calls) ⊎ (self.old.links ≡ [])) }
        ensures failed { OnErr result (self.new ≡ failed_call self.old) }
        ensures gives { IfOk result (λ link.
            (self.old.links ≡ link ∷ self.new.links) × (self.new ≡ gave_link self.new.links self.old)) }
    {
        self.links.call()?;
        match self.links.give() {
            Some(link) => Ok(link),
            None => {
                self.links.add_faults(1);
                Err(Failed)
            }
        }
    }

    /// Keeps what is left of the link, and adds its faults.
    fn hang_up(&mut self, link: MemLink)
        requires { 0 < self.old.out }
        ensures links { bytes_to_come self.new ≡ bytes_to_come self.old }
        ensures closed { ClosesOne (Some self.old.closed) (Some self.new.closed) (closed_of link) }
        ensures faults { AddsFaults self.old.faults self.new.faults (link.incoming.faults + link.outgoing.faults) }
        ensures kept { self.new ≡ record self.old {
          out = self.old.out - 1;
          closed = self.old.closed ++ closed_of link ∷ [];
          faults = min (self.old.faults + (link.incoming.faults + link.outgoing.faults)) (2 ^ 64 - 1);
        } }
    {
        self.links.add_faults(link.read_faults());
        self.links.add_faults(link.write_faults());
        self.links.take_back(link);
    }

    fn fault_count(&self) -> u64
        ensures { result ≡ self.now.faults }
    {
        self.links.fault_count()
    }
}
