//! Links that wait for one another, and a port of them.

ghost use Rattle.std.specs.Prelude.{◌≡◌};

use std::hint::spin_loop;
use std::marker::Model;
use tk_io::{Failed, Intake, Link, MemLink, Port, Share, Sink};

/// How often a link looks whether another one was dropped.
const LOOKS: u64 = 1_000_000_000;

/// A link in memory whose reads wait until another link was dropped, and fail where that takes too long. It tells no bytes.
#[derive(Drop)]
pub(crate) struct Waiter {
    link: MemLink,
    until: Option<Share>,
    read_faults: u64,
    write_faults: u64,
}

impl Model for Waiter {
    ghost use Rattle.tk_io.specs.Outside.{Connection};

    ghost Value = { Connection };

    ghost view = { λ l. record { read_faults = l.read_faults; write_faults = l.write_faults } };
}

/// Whether the link that leaves what it took in this share was dropped, once it was or too many looks were taken.
fn is_dropped(until: &Option<Share>) -> bool {
    let Some(share) = until else {
        return true;
    };
    for _ in 0..LOOKS {
        if share.get().is_some() {
            return true;
        }
        spin_loop();
    }
    false
}

impl Intake for Waiter {
    ghost use Rattle.std.specs.Prelude.{None};

    ghost left = { λ _. None };

    ghost faults = { λ l. l.read_faults };

    ghost aside = { λ l. record { bytes = None; faults = l.write_faults; pieces = None } };

    /// Reads as the link in memory does, once the other one was dropped.
    fn read(&mut self, into: &mut [u8]) -> Result<usize, Failed> {
        if !is_dropped(&self.until) {
            self.read_faults = self.read_faults.saturating_add(1);
            return Err(Failed);
        }
        let read = self.link.read(into);
        if read.is_err() {
            self.read_faults = self.read_faults.saturating_add(1);
        }
        read
    }
}

impl Sink for Waiter {
    ghost use Rattle.std.specs.Prelude.{None};

    ghost held = { λ _. None };

    ghost faults = { λ l. l.write_faults };

    ghost aside = { λ l. record { bytes = None; faults = l.read_faults; pieces = None } };

    /// Writes as the link in memory does.
    fn write(&mut self, bytes: &[u8]) -> Result<usize, Failed> {
        let written = self.link.write(bytes);
        if written.is_err() {
            self.write_faults = self.write_faults.saturating_add(1);
        }
        written
    }
}

impl Link for Waiter {
    ghost use Rattle.std.specs.Prelude.{refl};

    ghost reads_apart = { λ _. refl };

    ghost writes_apart = { λ _. refl };
}

/// A link in memory, and the link that it waits for, if it waits for one.
#[derive(Drop)]
pub(crate) struct Waits {
    pub link: MemLink,
    pub until: Option<Share>,
}

/// The link that waits so.
fn waiter_of(waits: Waits) -> Waiter
    ensures { result ≡ record { read_faults = 0; write_faults = 0 } }
{
    let Waits { link, until } = waits;
    Waiter {
        link,
        until,
        read_faults: 0,
        write_faults: 0,
    }
}

/// A port of such links, the next one last. It tells none, and never fails.
#[derive(Drop)]
pub(crate) struct WaiterPort {
    pub links: Vec<Waits>,
}

impl Port for WaiterPort {
    ghost use Rattle.std.specs.Prelude.{None, ⊤};

    type L = Waiter;

    ghost links = { λ _. None };

    ghost closed = { λ _. None };

    ghost faults = { λ _. 0 };

    ghost may_close = { λ _. ⊤ };

    /// Needs nothing.
    fn listen(&mut self, _number: u16) -> Result<(), Failed> {
        Ok(())
    }

    /// Gives the next link.
    fn accept(&mut self) -> Result<Option<Waiter>, Failed> {
        match self.links.pop() {
            Some(waits) => Ok(Some(waiter_of(waits))),
            None => Ok(None),
        }
    }

    /// Drops the link.
    fn hang_up(&mut self, link: Waiter) {
        drop(link);
    }
}
