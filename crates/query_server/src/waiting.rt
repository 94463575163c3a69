//! What stands behind the lock of a queue.

ghost use Rattle.std.specs.Prelude.{◌≡◌, ◌≤◌, ◌<◌, ◌∷◌, ◌++◌, [], true, false, not, ◌==◌, IfOk, IfSome, IfNone};
ghost use Rattle.std.specs.VecDeque.{deque_len, deque_capacity};

use std::alloc::Global;
use std::collections::VecDeque;
use std::time::{Clock, Duration, Instant};
use topk_base::Memory;

/// Links that wait for a worker, the first one first, never more than there is room for; whether more may come; whether somebody takes
/// them; and whether they may be taken.
#[derive(Drop)]
pub(crate) struct Waiting<L> {
    links: VecDeque<L>,
    room: usize,
    /// No more links come in this round.
    ended: bool,
    /// Somebody has begun to take links in this round.
    begun: bool,
    /// No link is taken for now.
    paused: bool,
    /// Until when links may be taken, if not for ever.
    until: Option<Instant>,
    /// Nobody takes links any more.
    left: bool,
    ghost fits: { (deque_len links ≤ room) × (room ≤ deque_capacity links) },
}

impl<L: Drop> Waiting<L> {
    /// No links, with room for so many.
    pub(crate) fn make(alloc: Global, room: usize) -> Result<Waiting<L>, Memory>
        ensures links { IfOk result (λ w. w.links.items ≡ []) }
        ensures room { IfOk result (λ w. w.room ≡ room) }
    {
        let links = VecDeque::with_capacity(alloc, room)?;
        Ok(Waiting {
            links,
            room,
            ended: false,
            begun: false,
            paused: false,
            until: None,
            left: false,
        })
    }

    /// Whether a link that comes has to wait outside.
    pub(crate) fn is_full(&self) -> bool {
        !self.left && self.links.len() >= self.room
    }

    /// Whether a worker that comes has to wait.
    pub(crate) fn is_idle(&self) -> bool {
        !self.paused && !self.left && !self.ended && self.links.is_empty()
    }

    /// Whether nobody knows yet that there is one more link, or that none comes.
    pub(crate) fn is_unsure(&self) -> bool {
        !self.ended && self.links.is_empty()
    }

    /// Whether somebody has begun to take links in this round.
    pub(crate) fn has_begun(&self) -> bool
        ensures { result ≡ self.now.begun }
    {
        self.begun
    }

    /// A round begins: links come again, and nobody takes them yet.
    pub(crate) fn renew(&mut self)
        ensures begun { self.new.begun ≡ false }
        ensures ended { self.new.ended ≡ false }
        ensures links { self.new.links.items ≡ self.old.links.items }
    {
        self.begun = false;
        self.ended = false;
    }

    /// Somebody takes links from now on.
    pub(crate) fn begin(&mut self)
        ensures begun { self.new.begun ≡ true }
        ensures links { self.new.links.items ≡ self.old.links.items }
    {
        self.begun = true;
    }

    /// Puts a link behind the others. False where there is no room, or nobody takes links any more: then the link is dropped.
    pub(crate) fn put(&mut self, link: L) -> bool
        ensures put { result ≡ true → self.new.links.items ≡ self.old.links.items ++ link ∷ [] }
        ensures not_put { result ≡ false → self.new.links.items ≡ self.old.links.items }
        ensures left { self.old.left ≡ true → result ≡ false }
    {
        if self.left || self.links.len() >= self.room {
            return false;
        }
        self.links.push_back_reserved(link);
        true
    }

    /// Takes the first link, unless none may be taken.
    pub(crate) fn take(&mut self) -> Option<L>
        ensures first { IfSome result (λ link. self.old.links.items ≡ link ∷ self.new.links.items) }
        ensures stay { IfNone result (self.new.links.items ≡ self.old.links.items) }
        ensures paused { self.old.paused ≡ true → IfSome result (λ _. self.old.paused ≡ false) }
    {
        if self.paused || self.left {
            return None;
        }
        self.links.pop_front()
    }

    /// No more links come in this round.
    pub(crate) fn end(&mut self)
        ensures { self.new.links.items ≡ self.old.links.items }
    {
        self.ended = true;
    }

    /// Whether the time is over in which links may be taken. Where the clock can't be read it never is.
    pub(crate) fn is_due<C: Clock>(&self, clock: &C) -> bool {
        let Some(until) = self.until else {
            return false;
        };
        match Instant::now(clock) {
            Ok(now) => now >= until,
            Err(_) => false,
        }
    }

    /// No link is taken for now.
    pub(crate) fn pause(&mut self)
        ensures paused { self.new.paused ≡ true }
        ensures links { self.new.links.items ≡ self.old.links.items }
    {
        self.paused = true;
    }

    /// Links are taken again, for so many seconds if that is said.
    pub(crate) fn resume<C: Clock>(&mut self, clock: &C, seconds: Option<u64>)
        ensures paused { self.new.paused ≡ false }
        ensures links { self.new.links.items ≡ self.old.links.items }
    {
        self.paused = false;
        self.until = match seconds {
            Some(seconds) => moment_in(clock, seconds),
            None => None,
        };
    }

    /// Drops the links that wait. Nobody takes links any more.
    pub(crate) fn leave(&mut self)
        ensures left { self.new.left ≡ true }
        ensures links { self.new.links.items ≡ [] }
    {
        self.left = true;
        self.links.clear();
    }

    /// Whether a link waits.
    pub(crate) fn has_link(&self) -> bool
        ensures { result ≡ not (deque_len self.now.links == 0) }
    {
        !self.links.is_empty()
    }
}

/// The moment that comes in so many seconds. None where the clock can't be read.
fn moment_in<C: Clock>(clock: &C, seconds: u64) -> Option<Instant> {
    match Instant::now(clock) {
        Ok(now) => now.checked_add(Duration::from_secs(seconds)),
        Err(_) => None,
    }
}
