//! A port that stands in memory.

ghost use Rattle.std.specs.Prelude.{◌≡◌, ◌<◌, ◌∷◌, ◌++◌, ◌-◌, [], Some, None, Contains, IsErr, IfOk, IfSome, OnOk, OnErr, ◌↔◌, All};
ghost use Rattle.tk_io.specs.Faults.{HasCause};
ghost use Rattle.tk_io.specs.InMemory.{next_call};
ghost use Rattle.tk_io.specs.Links.{GivesFirst, HasNone, IsFresh, ClosesOne};
ghost use Rattle.tk_io.specs.LinksInMemory.{bytes_to_come, closed_of, counted_call, failed_call, gave_link, IsUnused};

use super::mem_link::Ended;
use super::mem_links::MemLinks;
use super::{Failed, MemLink, Memory, Port};
use std::alloc::Global;
use std::marker::Model;

/// A port of links in memory, with calls that are to fail. It ends behind its last link.
///
/// Contracts see it as the record of the links that are to come, how many are out, what is left of those
/// that were given back, the numbers of the calls that fail (`listen` and `accept` together, from 1), how
/// many calls there were, and how many of them failed.
#[derive(Drop)]
pub struct MemPort {
    links: MemLinks,
}

impl Model for MemPort {
    ghost use Rattle.tk_io.specs.LinksInMemory.{Giving};

    ghost Value = { Giving };

    ghost view = { λ p. p.links };
}

impl MemPort {
    /// The port of these links, in this order, whose calls with a number in `fails` fail. It had no call
    /// yet. The memory for what is left of the links is taken here. Where it is refused they are dropped.
    pub fn make(alloc: Global, links: Vec<MemLink>, fails: &[u64]) -> Result<MemPort, Memory>
        requires { All IsUnused links.items }
        ensures { IfOk result (λ p. p ≡ record {
          links = links.items;
          out = 0;
          closed = [];
          fails = fails.now;
          calls = 0;
          faults = 0;
        }) }
    {
        let links = MemLinks::make(alloc, links, fails)?;
        Ok(MemPort { links })
    }

    /// What is left of the links that were given back, in this order.
    pub fn closed(&self) -> &[Ended]
        ensures { result.now ≡ self.now.closed }
    {
        self.links.closed()
    }
}

impl Port for MemPort {
    ghost use Rattle.std.specs.Prelude.{Some, ◌<◌};
    ghost use Rattle.tk_io.specs.LinksInMemory.{bytes_to_come};

    type L = MemLink;

    ghost links = { bytes_to_come };

    ghost closed = { λ p. Some p.closed };

    ghost faults = { λ p. p.faults };

    ghost may_close = { λ p. 0 < p.out };

    /// Fails exactly where the number of this call is among those that fail.
    fn listen(&mut self, _number: u16) -> Result<(), Failed>
        ensures links { bytes_to_come self.new ≡ bytes_to_come self.old }
        ensures closed { self.new.closed ≡ self.old.closed }
        ensures cause { HasCause self.old.faults self.new.faults result }
        ensures fails { IsErr result ↔ Contains self.old.fails (next_call self.old.calls) }
        ensures failed { OnErr result (self.new ≡ failed_call self.old) }
        ensures passed { OnOk result (self.new ≡ counted_call self.old) }
    {
        self.links.call()
    }

    /// Fails exactly where the number of this call is among those that fail, and else gives the first of
    /// the links to come, or None where there is none.
    fn accept(&mut self) -> Result<Option<MemLink>, Failed>
        ensures given { IfOk result (λ given. IfSome given (λ link.
            GivesFirst (bytes_to_come self.old) (bytes_to_come self.new) (Some link.incoming.left) (Some link.outgoing.held))) }
        ensures fresh { IfOk result (λ given. IfSome given (λ link.
            IsFresh (Some link.outgoing.held) link.incoming.faults link.outgoing.faults None)) }
        ensures out { IfOk result (λ given. IfSome given (λ link. 0 < self.new.out)) }
        ensures ended { IfOk result (λ given. given ≡ None
            → HasNone (bytes_to_come self.old) × (bytes_to_come self.new ≡ bytes_to_come self.old)) }
        ensures kept { OnErr result (bytes_to_come self.new ≡ bytes_to_come self.old) }
        ensures closed { self.new.closed ≡ self.old.closed }
        ensures cause { HasCause self.old.faults self.new.faults result }
        ensures fails { IsErr result ↔ Contains self.old.fails (next_call self.old.calls) }
        ensures failed { OnErr result (self.new ≡ failed_call self.old) }
        ensures gives { IfOk result (λ given. IfSome given (λ link.
            (self.old.links ≡ link ∷ self.new.links) × (self.new ≡ gave_link self.new.links self.old))) }
        ensures none { IfOk result (λ given. given ≡ None → (self.old.links ≡ []) × (self.new ≡ counted_call self.old)) }
    {
        self.links.call()?;
        match self.links.give() {
            Some(link) => Ok(Some(link)),
            None => Ok(None),
        }
    }

    /// Keeps what is left of the link.
    fn hang_up(&mut self, link: MemLink)
        requires { 0 < self.old.out }
        ensures links { bytes_to_come self.new ≡ bytes_to_come self.old }
        ensures closed { ClosesOne (Some self.old.closed) (Some self.new.closed) (closed_of link) }
        ensures faults { self.new.faults ≡ self.old.faults }
        ensures kept { self.new ≡ record self.old { out = self.old.out - 1; closed = self.old.closed ++ closed_of link ∷ [] } }
    {
        self.links.take_back(link);
    }
}
