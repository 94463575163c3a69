use std::sync::Wait;
use std::sync::atomic::{AtomicU64, Ordering};

/// The epochs that a sleeper tells apart.
const EPOCHS: u64 = 4_294_967_296;

/// Some notify, and others wait for it. No clause depends on it: who wakes looks again.
#[derive(Drop)]
pub struct Notify {
    /// How often it was notified, modulo 2^64.
    epoch: AtomicU64,
    /// How many sleep or are about to. Where nobody does, to notify makes no system call.
    sleepers: AtomicU64,
}

impl Notify {
    /// One that wasn't notified. Takes no memory.
    pub fn make() -> Notify {
        Notify {
            epoch: AtomicU64::new(0),
            sleepers: AtomicU64::new(0),
        }
    }

    /// Its epoch: how often it was notified, modulo 2^64.
    pub fn epoch(&self) -> u64 {
        self.epoch.load(Ordering::SeqCst)
    }

    /// Begins the next epoch, and wakes all who sleep. Who isn't counted as a sleeper yet finds another epoch.
    pub fn notify_all(&self) {
        self.epoch.fetch_add(1, Ordering::SeqCst);
        if self.sleepers.load(Ordering::SeqCst) > 0 {
            self.epoch.wake_all();
        }
    }

    /// Begins the next epoch, and wakes one of those who sleep.
    pub fn notify_one(&self) {
        self.epoch.fetch_add(1, Ordering::SeqCst);
        if self.sleepers.load(Ordering::SeqCst) > 0 {
            self.epoch.wake_one();
        }
    }

    /// Sleeps until this epoch has ended. It may also return for no reason.
    pub fn wait(&self, rt: &impl Wait, epoch: u64) {
        self.sleepers.fetch_add(1, Ordering::SeqCst);
        self.epoch.park(rt, (epoch % EPOCHS) as u32);
        self.sleepers.fetch_sub(1, Ordering::SeqCst);
    }
}
