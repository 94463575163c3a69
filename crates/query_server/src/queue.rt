//! A queue of links.

use super::waiting::Waiting;
use std::alloc::Global;
use std::sync::{Condvar, Mutex, Wait};
use std::time::{Clock, Duration};
use topk_base::Memory;

/// For how many milliseconds who puts links in waits for somebody to begin to take them.
const PATIENCE_MILLIS: u64 = 100;

/// Links that were accepted and that no worker took yet. The side that has the port puts them in, and waits while the queue is full;
/// workers take them, and wait while it is empty and more may come. It serves in rounds, mostly in one: links come until the round is ended.
///
/// A link that went through the queue is known by its type alone: who takes it learns nothing of what it was when it was put in.
pub struct LinkQueue<L: Send + Drop> {
    waiting: Mutex<Waiting<L>>,
    /// A link came, or none is to be waited for.
    came: Condvar,
    /// A link went, somebody has begun to take links, or none is to be put in any more.
    went: Condvar,
}

/// Written here, and not derived, so that a crate that lets a queue go calls this.
impl<L: Send + Drop> Drop for LinkQueue<L> {
    fn drop(self) {
        let LinkQueue {
            waiting: _waiting,
            came: _came,
            went: _went,
        } = self;
    }
}

impl<L: Send + Drop> LinkQueue<L> {
    /// A queue with room for so many links, in which none waits. The room should be 1 at least: in one without room who puts a
    /// link in waits until the queue is left.
    pub fn make(alloc: Global, room: u32) -> Result<LinkQueue<L>, Memory> {
        let waiting = Waiting::make(alloc, room as usize)?;
        Ok(LinkQueue {
            waiting: Mutex::new(waiting),
            came: Condvar::new(),
            went: Condvar::new(),
        })
    }

    /// Says that a round begins: links come again, and nobody takes them yet.
    pub fn renew(&self, rt: &impl Wait) {
        let mut guard = self.waiting.lock(rt);
        let waiting = &mut *guard;
        waiting.renew();
    }

    /// Says that somebody takes links from now on.
    pub fn begin(&self, rt: &impl Wait) {
        let mut guard = self.waiting.lock(rt);
        let waiting = &mut *guard;
        waiting.begin();
        self.went.notify_all();
    }

    /// Whether somebody has begun to take links in this round. It waits for that, but not for long.
    pub fn has_begun<R: Wait + Clock>(&self, rt: &R) -> bool {
        let patience = Duration::from_millis(PATIENCE_MILLIS);
        let (_guard, wait) = self
            .went
            .wait_timeout_while(rt, self.waiting.lock(rt), patience, |waiting| {
                !waiting.has_begun()
            });
        !wait.timed_out()
    }

    /// Puts a link in, once there is room. False where nobody takes links any more: then it is dropped. Where the time since `resume` is over,
    /// no link is taken from now on, as after `pause`.
    pub fn put<R: Wait + Clock>(&self, rt: &R, link: L) -> bool {
        let mut guard = self
            .went
            .wait_while(rt, self.waiting.lock(rt), |waiting| waiting.is_full());
        let waiting = &mut *guard;
        if waiting.is_due(rt) {
            waiting.pause();
            self.came.notify_all();
        }
        let put = waiting.put(link);
        self.came.notify_one();
        put
    }

    /// Says that no more links come in this round. Those that wait are still taken.
    pub fn end(&self, rt: &impl Wait) {
        let mut guard = self.waiting.lock(rt);
        let waiting = &mut *guard;
        waiting.end();
        self.came.notify_all();
    }

    /// Takes the link that waits longest, once there is one. None where no more come, or none is to be taken for now.
    pub fn take(&self, rt: &impl Wait) -> Option<L> {
        let mut guard = self
            .came
            .wait_while(rt, self.waiting.lock(rt), |waiting| waiting.is_idle());
        let waiting = &mut *guard;
        let link = waiting.take();
        self.went.notify_one();
        link
    }

    /// From now on no link is taken. Those that wait, and those that are put in meanwhile, stay.
    pub fn pause(&self, rt: &impl Wait) {
        let mut guard = self.waiting.lock(rt);
        let waiting = &mut *guard;
        waiting.pause();
        self.came.notify_all();
    }

    /// Links are taken again, for so many seconds if that is said.
    pub fn resume<R: Wait + Clock>(&self, rt: &R, seconds: Option<u64>) {
        let mut guard = self.waiting.lock(rt);
        let waiting = &mut *guard;
        waiting.resume(rt, seconds);
        self.came.notify_all();
    }

    /// Whether a link waits, once one does or no more come.
    pub fn has_more(&self, rt: &impl Wait) -> bool {
        let guard = self
            .came
            .wait_while(rt, self.waiting.lock(rt), |waiting| waiting.is_unsure());
        let waiting = &*guard;
        waiting.has_link()
    }

    /// Drops the links that wait. Nobody takes links any more, and each that is put in from now on is dropped.
    pub fn leave(&self, rt: &impl Wait) {
        let mut guard = self.waiting.lock(rt);
        let waiting = &mut *guard;
        waiting.leave();
        self.went.notify_all();
    }
}
