//! Links in memory that are given one after another.

ghost use Rattle.std.specs.Prelude.{◌≡◌, ◌<◌, ◌+◌, ◌-◌, ◌∷◌, ◌++◌, ◌^◌, [], min, Contains, IsErr, IfOk, IfSome, OnOk, OnErr, None, ◌↔◌, All};
ghost use Rattle.tk_io.specs.Faults.{HasCause};
ghost use Rattle.tk_io.specs.InMemory.{next_call};
ghost use Rattle.tk_io.specs.Links.{AddsFaults};
ghost use Rattle.tk_io.specs.LinksInMemory.{closed_of, counted_call, failed_call, IsUnused};

use super::mem_link::Ended;
use super::{Failed, MemLink, Memory};
use std::alloc::Global;
use std::marker::Model;

/// Links in memory that are given one after another, and what is left of those that were given back,
/// with calls that are to fail.
#[derive(Drop)]
pub(crate) struct MemLinks {
    /// The links to come, the next one last.
    links: Vec<MemLink>,
    /// How many were given and not given back.
    out: usize,
    closed: Vec<Ended>,
    fails: Vec<u64>,
    calls: u64,
    faults: u64,
}

impl Model for MemLinks {
    ghost use Rattle.std.specs.Prelude.{◌+◌, ◌≤◌, reverse, vec_len, vec_capacity, All};
    ghost use Rattle.tk_io.specs.LinksInMemory.{Giving, IsUnused};

    ghost Value = { Giving };

    ghost view = { λ m. record {
      links = reverse m.links.items;
      out = m.out;
      closed = m.closed.items;
      fails = m.fails.items;
      calls = m.calls;
      faults = m.faults;
    } };

    ghost invariant = { λ m. (vec_len m.links + m.out + vec_len m.closed ≤ vec_capacity m.closed) × All IsUnused m.links.items };
}

impl MemLinks {
    /// These links, in this order, of which none was given yet, whose calls with a number in `fails`
    /// fail. The memory for what is left of them is taken here.
    pub(crate) fn make(
        alloc: Global,
        mut links: Vec<MemLink>,
        fails: &[u64],
    ) -> Result<MemLinks, Memory>
        requires { All IsUnused links.items }
        ensures { IfOk result (λ m. m ≡ record {
          links = links.items;
          out = 0;
          closed = [];
          fails = fails.now;
          calls = 0;
          faults = 0;
        }) }
    {
        let fails = Vec::from_slice(alloc, fails)?;
        let closed = Vec::with_capacity(alloc, links.len())?;
        links.reverse();
        Ok(MemLinks {
            links,
            out: 0,
            closed,
            fails,
            calls: 0,
            faults: 0,
        })
    }

    /// How many calls failed.
    pub(crate) fn fault_count(&self) -> u64
        ensures { result ≡ self.now.faults }
    {
        self.faults
    }

    /// Counts a call. It fails exactly where its number is among those that fail.
    pub(crate) fn call(&mut self) -> Result<(), Failed>
        ensures fails { IsErr result ↔ Contains self.old.fails (next_call self.old.calls) }
        ensures failed { OnErr result (self.new ≡ failed_call self.old) }
        ensures passed { OnOk result (self.new ≡ counted_call self.old) }
        ensures cause { HasCause self.old.faults self.new.faults result }
    {
        self.calls = self.calls.saturating_add(1);
        if self.fails.contains(&self.calls) {
            self.faults = self.faults.saturating_add(1);
            return Err(Failed);
        }
        Ok(())
    }

    /// Counts so many more faults.
    pub(crate) fn add_faults(&mut self, count: u64)
        ensures added { self.new ≡ record self.old { faults = min (self.old.faults + count) (2 ^ 64 - 1) } }
        ensures faults { AddsFaults self.old.faults self.new.faults count }
    {
        self.faults = self.faults.saturating_add(count);
    }

    /// Gives the next link, if there is one.
    pub(crate) fn give(&mut self) -> Option<MemLink>
        ensures first { IfSome result (λ link. self.old.links ≡ link ∷ self.new.links) }
        ensures unused { IfSome result IsUnused }
        ensures gave { IfSome result (λ link. self.new ≡ record self.old { links = self.new.links; out = self.old.out + 1 }) }
        ensures none { result ≡ None → (self.old.links ≡ []) × (self.new ≡ self.old) }
    {
        let link = self.links.pop()?;
        self.out += 1;
        Some(link)
    }

    /// Takes a link back that was given.
    pub(crate) fn take_back(&mut self, link: MemLink)
        requires { 0 < self.old.out }
        ensures { self.new ≡ record self.old { out = self.old.out - 1; closed = self.old.closed ++ closed_of link ∷ [] } }
    {
        self.out -= 1;
        self.closed.push(link.end()).unwrap();
    }

    /// What is left of the links that were given back, in this order.
    pub(crate) fn closed(&self) -> &[Ended]
        ensures { result.now ≡ self.now.closed }
    {
        self.closed.as_slice()
    }
}
