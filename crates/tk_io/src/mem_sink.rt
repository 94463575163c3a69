//! A stream to write to that stands in memory.

ghost use Rattle.std.specs.Prelude.{◌≡◌, ◌<◌, ◌⊎◌, ◌↔◌, ◌-◌, [], length, take, min, Some, Contains, IsErr, IfOk, OnErr};
ghost use Rattle.tk_io.specs.InMemory.{next_call, failed_write, write_of};
ghost use Rattle.std.specs.Io.{WritesAtMost};
ghost use Rattle.std.specs.Io.KnownBytes.{WriteAppends};
ghost use Rattle.tk_io.specs.Faults.{HasCause};

use super::{Failed, Memory, Sink};
use std::alloc::Global;
use std::marker::Model;

/// A stream that keeps what it takes in memory, up to its room, with calls that are to fail.
///
/// Contracts see it as the record of the bytes that it holds, the room for bytes in all, the
/// numbers of the calls that fail (calls count from 1), how many calls there were, and how many of
/// them failed.
#[derive(Drop)]
pub struct MemSink {
    bytes: Vec<u8>,
    room: u32,
    fails: Vec<u64>,
    calls: u64,
    faults: u64,
}

impl Model for MemSink {
    ghost use Rattle.std.specs.Prelude.{◌≤◌, vec_len, vec_capacity};
    ghost use Rattle.tk_io.specs.InMemory.{Outgoing};

    ghost Value = { Outgoing };

    ghost view = { λ m. record {
      held = m.bytes.items;
      room = m.room;
      fails = m.fails.items;
      calls = m.calls;
      faults = m.faults;
    } };

    ghost invariant = { λ m. (vec_len m.bytes ≤ m.room) × (m.room ≤ vec_capacity m.bytes) };
}

impl MemSink {
    /// A stream that has taken nothing yet and has room for `room` bytes, whose calls with a number
    /// in `fails` fail. The memory for the whole room is taken here.
    pub fn make(alloc: Global, room: u32, fails: &[u64]) -> Result<MemSink, Memory>
        ensures { IfOk result (λ m. m ≡ record {
          held = [];
          room = room;
          fails = fails.now;
          calls = 0;
          faults = 0;
        }) }
    {
        Ok(MemSink {
            bytes: Vec::with_capacity(alloc, room as usize)?,
            room,
            fails: Vec::from_slice(alloc, fails)?,
            calls: 0,
            faults: 0,
        })
    }

    /// The bytes that it has taken.
    pub fn taken(&self) -> &[u8]
        ensures { result.now ≡ self.now.held }
    {
        self.bytes.as_slice()
    }

    /// The bytes that it has taken, and the stream is no more.
    pub(crate) fn into_taken(self) -> Vec<u8>
        ensures { result.items ≡ self.held }
    {
        self.bytes
    }

    /// How many calls failed.
    pub(crate) fn faults(&self) -> u64
        ensures { result ≡ self.now.faults }
    {
        self.faults
    }
}

impl Sink for MemSink {
    ghost use Rattle.std.specs.Prelude.{Some};

    ghost held = { λ m. Some m.held };

    ghost faults = { λ m. m.faults };

    /// Fails exactly where the number of this call is among those that fail or where there is a byte
    /// to take and no room, and else takes what fits.
    fn write(&mut self, bytes: &[u8]) -> Result<usize, Failed>
        ensures bound { WritesAtMost result bytes.now }
        ensures moves { 0 < length bytes.now → IfOk result (λ count. 0 < count) }
        ensures taken { WriteAppends (Some self.old.held) (Some self.new.held) result bytes.now }
        ensures cause { HasCause self.old.faults self.new.faults result }
        ensures fails { IsErr result ↔ (Contains self.old.fails (next_call self.old.calls)
            ⊎ ((0 < length bytes.now) × (length self.old.held ≡ self.old.room))) }
        ensures failed { OnErr result (self.new ≡ failed_write self.old) }
        ensures takes { IfOk result (λ count.
            (count ≡ min (length bytes.now) (self.old.room - length self.old.held))
            × (self.new ≡ write_of (take count bytes.now) self.old)) }
    {
        self.calls = self.calls.saturating_add(1);
        let room = self.room as usize - self.bytes.len();
        if self.fails.contains(&self.calls) || (room == 0 && !bytes.is_empty()) {
            self.faults = self.faults.saturating_add(1);
            return Err(Failed);
        }
        let count = bytes.len().min(room);
        self.bytes.extend_from_slice(&bytes[..count]).unwrap();
        Ok(count)
    }
}
