//! A link that stands in memory.

ghost use Rattle.std.specs.Prelude.{◌≡◌, ◌<◌, ◌⊎◌, ◌↔◌, ◌-◌, [], length, take, min, Some, Contains, IsErr, IfOk, OnErr};
ghost use Rattle.std.specs.Io.{ReadsAtMost, WritesAtMost};
ghost use Rattle.std.specs.Io.KnownBytes.{ReadConsumes, WriteAppends};
ghost use Rattle.tk_io.specs.Faults.{HasCause};
ghost use Rattle.tk_io.specs.InMemory.{next_call, failed_read, read_of, failed_write, write_of};
ghost use Rattle.tk_io.specs.LinksInMemory.{closed_of};

use super::{Failed, Intake, Link, MemIntake, MemSink, Memory, Sink};
use std::alloc::Global;
use std::marker::Model;
use std::sync::{Arc, OnceLock};

/// Where a link leaves the bytes that it took when it is dropped.
pub type Share = Arc<OnceLock<Vec<u8>>>;

/// Bytes in memory to be read, and room for those that are written, each with calls that are to fail.
///
/// Contracts see it as the record of what it is to read and what it is to write to. Where it is dropped
/// it leaves the bytes that it took in its share; no contract speaks of that.
pub struct MemLink {
    intake: MemIntake,
    sink: MemSink,
    share: Option<Share>,
}

impl Model for MemLink {
    ghost use Rattle.tk_io.specs.LinksInMemory.{TwoWay};

    ghost Value = { TwoWay };

    ghost view = { λ l. record { incoming = l.intake; outgoing = l.sink } };
}

impl Drop for MemLink {
    fn drop(self) {
        let MemLink {
            intake,
            sink,
            share,
        } = self;
        drop(intake);
        let taken = sink.into_taken();
        if let Some(share) = share {
            match share.try_set(taken) {
                Ok(_) => {}
                Err(_) => {}
            }
        }
    }
}

impl MemLink {
    /// The link that gives these bytes, at most `piece` of them in one read, and has room for `room`
    /// bytes. Of its reads those with a number in `read_fails` fail, and of its writes those in
    /// `write_fails`; reads and writes are counted apart. It had no call yet.
    pub fn make(
        alloc: Global,
        bytes: &[u8],
        piece: u32,
        room: u32,
        read_fails: &[u64],
        write_fails: &[u64],
        share: Option<Share>,
    ) -> Result<MemLink, Memory>
        requires { 0 < piece }
        ensures { IfOk result (λ l. l ≡ record {
          incoming = record { left = bytes.now; piece = piece; fails = read_fails.now; calls = 0; faults = 0 };
          outgoing = record { held = []; room = room; fails = write_fails.now; calls = 0; faults = 0 };
        }) }
    {
        let intake = MemIntake::make(alloc, bytes, piece, read_fails)?;
        let sink = MemSink::make(alloc, room, write_fails)?;
        Ok(MemLink {
            intake,
            sink,
            share,
        })
    }

    /// The bytes that it took.
    pub fn taken(&self) -> &[u8]
        ensures { result.now ≡ self.now.outgoing.held }
    {
        self.sink.taken()
    }

    /// How many of its reads failed.
    pub(crate) fn read_faults(&self) -> u64
        ensures { result ≡ self.now.incoming.faults }
    {
        self.intake.faults()
    }

    /// How many of its writes failed.
    pub(crate) fn write_faults(&self) -> u64
        ensures { result ≡ self.now.outgoing.faults }
    {
        self.sink.faults()
    }

    /// What is left of it once it is given back. Its share gets nothing.
    pub(crate) fn end(self) -> Ended
        ensures { result ≡ closed_of self }
    {
        let MemLink {
            intake,
            sink,
            share,
        } = self;
        let read_faults = intake.faults();
        let write_faults = sink.faults();
        drop(share);
        drop(intake);
        Ended {
            taken: sink.into_taken(),
            read_faults,
            write_faults,
        }
    }
}

impl Intake for MemLink {
    ghost use Rattle.std.specs.Prelude.{None, Some};

    ghost left = { λ l. Some l.incoming.left };

    ghost faults = { λ l. l.incoming.faults };

    ghost aside = { λ l. record { bytes = Some l.outgoing.held; faults = l.outgoing.faults; pieces = None } };

    /// Reads as a `MemIntake` does.
    fn read(&mut self, into: &mut [u8]) -> Result<usize, Failed>
        ensures bound { ReadsAtMost result into.new }
        ensures bytes { ReadConsumes (Some self.old.incoming.left) (Some self.new.incoming.left) result into.new }
        ensures cause { HasCause self.old.incoming.faults self.new.incoming.faults result }
        ensures apart { self.new.outgoing ≡ self.old.outgoing }
        ensures fails { IsErr result ↔ Contains self.old.incoming.fails (next_call self.old.incoming.calls) }
        ensures failed { OnErr result (self.new.incoming ≡ failed_read self.old.incoming) }
        ensures gives { IfOk result (λ count.
            (count ≡ min (min self.old.incoming.piece (length into.old)) (length self.old.incoming.left))
            × (self.new.incoming ≡ read_of count self.old.incoming)) }
    {
        self.intake.read(into)
    }
}

impl Sink for MemLink {
    ghost use Rattle.std.specs.Prelude.{None, Some};

    ghost held = { λ l. Some l.outgoing.held };

    ghost faults = { λ l. l.outgoing.faults };

    ghost aside = { λ l. record { bytes = Some l.incoming.left; faults = l.incoming.faults; pieces = None } };

    /// Writes as a `MemSink` does.
    fn write(&mut self, bytes: &[u8]) -> Result<usize, Failed>
        ensures bound { WritesAtMost result bytes.now }
        ensures moves { 0 < length bytes.now → IfOk result (λ count. 0 < count) }
        ensures taken { WriteAppends (Some self.old.outgoing.held) (Some self.new.outgoing.held) result bytes.now }
        ensures cause { HasCause self.old.outgoing.faults self.new.outgoing.faults result }
        ensures apart { self.new.incoming ≡ self.old.incoming }
        ensures fails { IsErr result ↔ (Contains self.old.outgoing.fails (next_call self.old.outgoing.calls)
            ⊎ ((0 < length bytes.now) × (length self.old.outgoing.held ≡ self.old.outgoing.room))) }
        ensures failed { OnErr result (self.new.outgoing ≡ failed_write self.old.outgoing) }
        ensures takes { IfOk result (λ count.
            (count ≡ min (length bytes.now) (self.old.outgoing.room - length self.old.outgoing.held))
            × (self.new.outgoing ≡ write_of (take count bytes.now) self.old.outgoing)) }
    {
        self.sink.write(bytes)
    }
}

impl Link for MemLink {
    ghost use Rattle.std.specs.Prelude.{refl};

    ghost reads_apart = { λ _. refl };

    ghost writes_apart = { λ _. refl };
}

/// What is left of a link in memory that was given back.
///
/// Contracts see it as the record of the bytes that the link took, and how many of its reads and of its
/// writes failed.
#[derive(Drop)]
pub struct Ended {
    taken: Vec<u8>,
    read_faults: u64,
    write_faults: u64,
}

impl Model for Ended {
    ghost use Rattle.std.specs.Prelude.{None, Some};
    ghost use Rattle.tk_io.specs.Links.{Closed};

    ghost Value = { Closed };

    ghost view = { λ e. record {
      taken = Some e.taken.items;
      read_faults = e.read_faults;
      write_faults = e.write_faults;
      pieces = None;
    } };
}

impl Ended {
    ghost use Rattle.std.specs.Prelude.{◌≡◌, Some};

    /// The bytes that the link took.
    pub fn taken(&self) -> &[u8]
        ensures { Some result.now ≡ self.now.taken }
    {
        self.taken.as_slice()
    }

    /// How many reads of the link failed.
    pub fn read_faults(&self) -> u64
        ensures { result ≡ self.now.read_faults }
    {
        self.read_faults
    }

    /// How many writes of the link failed.
    pub fn write_faults(&self) -> u64
        ensures { result ≡ self.now.write_faults }
    {
        self.write_faults
    }
}
