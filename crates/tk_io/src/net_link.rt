//! A connection as a link.

ghost use Rattle.std.specs.Prelude.{◌≡◌, IfSome};

use super::letting_go::read_away;
use super::std_intake::read_once;
use super::std_sink::write_once;
use super::time_limit::TimeLimit;
use super::{Failed, Intake, Link, Sink};
use std::marker::Model;
use std::net::TcpStream;
use std::time::{Clock, Duration};
use topk_base::{MAX_LINK_SECONDS, MAX_WAIT_SECONDS};

/// A connection of std. It tells no bytes: it is the trusted edge. A read or a write that moves nothing
/// for too long fails, and so does one that begins too long after the first one. Contracts see it as its
/// two counts of faults.
#[derive(Drop)]
pub struct NetLink<C: Clock + Drop> {
    stream: TcpStream,
    clock: C,
    reads: TimeLimit,
    writes: TimeLimit,
    read_faults: u64,
    write_faults: u64,
}

impl<C: Clock + Drop> Model for NetLink<C> {
    ghost use Rattle.tk_io.specs.Outside.{Connection};

    ghost Value = { Connection };

    ghost view = { λ l. record { read_faults = l.read_faults; write_faults = l.write_faults } };
}

impl<C: Clock + Drop> NetLink<C> {
    /// The link of a connection, of which no call failed yet. None where the connection takes no limit on
    /// how long it waits.
    pub fn make(stream: TcpStream, clock: C) -> Option<NetLink<C>>
        ensures { IfSome result (λ link. link ≡ record { read_faults = 0; write_faults = 0 }) }
    {
        if !limits_waits(&stream) {
            return None;
        }
        Some(NetLink {
            stream,
            clock,
            reads: TimeLimit::make(MAX_LINK_SECONDS),
            writes: TimeLimit::make(MAX_LINK_SECONDS),
            read_faults: 0,
            write_faults: 0,
        })
    }

    /// Says that nothing more is written, and reads away what still comes, for a bounded time and size. Where a call
    /// of it failed it is closed at once.
    pub(crate) fn let_go(mut self) {
        if self.read_faults == 0 && self.write_faults == 0 {
            read_away(&mut self.stream, &self.clock);
        }
    }

    /// How many of its reads failed.
    pub(crate) fn read_faults(&self) -> u64
        ensures { result ≡ self.now.read_faults }
    {
        self.read_faults
    }

    /// How many of its writes failed.
    pub(crate) fn write_faults(&self) -> u64
        ensures { result ≡ self.now.write_faults }
    {
        self.write_faults
    }
}

/// Limits how long a connection waits in a read and in a write, and tells whether it took the limits.
fn limits_waits(stream: &TcpStream) -> bool {
    let limit = Duration::from_secs(MAX_WAIT_SECONDS);
    stream.set_read_timeout(Some(limit)).is_ok() && stream.set_write_timeout(Some(limit)).is_ok()
}

impl<C: Clock + Drop> Intake for NetLink<C> {
    ghost use Rattle.std.specs.Prelude.{None};

    ghost left = { λ _. None };

    ghost faults = { λ l. l.read_faults };

    ghost aside = { λ l. record { bytes = None; faults = l.write_faults; pieces = None } };

    /// Reads once, and again where the call was interrupted. Any other error is a fault, and so is a read
    /// that begins too late.
    fn read(&mut self, into: &mut [u8]) -> Result<usize, Failed> {
        let read = match self.reads.admits(&self.clock) {
            true => read_once(&mut self.stream, into),
            false => Err(Failed),
        };
        if read.is_err() {
            self.read_faults = self.read_faults.saturating_add(1);
        }
        read
    }
}

impl<C: Clock + Drop> Sink for NetLink<C> {
    ghost use Rattle.std.specs.Prelude.{None};

    ghost held = { λ _. None };

    ghost faults = { λ l. l.write_faults };

    ghost aside = { λ l. record { bytes = None; faults = l.read_faults; pieces = None } };

    /// Writes once, and again where the call was interrupted. Any other error is a fault, and so is a
    /// write that takes nothing of a piece, or that begins too late.
    fn write(&mut self, bytes: &[u8]) -> Result<usize, Failed> {
        let written = match self.writes.admits(&self.clock) {
            true => write_once(&mut self.stream, bytes),
            false => Err(Failed),
        };
        if written.is_err() {
            self.write_faults = self.write_faults.saturating_add(1);
        }
        written
    }
}

impl<C: Clock + Drop> Link for NetLink<C> {
    ghost use Rattle.std.specs.Prelude.{refl};

    fn close(self) {
        self.let_go();
    }

    ghost reads_apart = { λ _. refl };

    ghost writes_apart = { λ _. refl };
}
