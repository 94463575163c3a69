//! A stream to read that stands in memory.

ghost use Rattle.std.specs.Prelude.{◌≡◌, ◌<◌, ◌↔◌, length, min, Some, Contains, IsErr, IfOk, OnErr};
ghost use Rattle.tk_io.specs.InMemory.{next_call, failed_read, read_of};
ghost use Rattle.std.specs.Io.{ReadsAtMost};
ghost use Rattle.std.specs.Io.KnownBytes.{ReadConsumes};
ghost use Rattle.tk_io.specs.Faults.{HasCause};

use super::copies::copy_to_front;
use super::{Failed, Intake, Memory};
use std::alloc::Global;
use std::marker::Model;

/// Bytes in memory, given in pieces, with calls that are to fail.
///
/// Contracts see it as the record of the bytes that are left, the most bytes that one call gives,
/// the numbers of the calls that fail (calls count from 1), how many calls there were, and how many
/// of them failed.
#[derive(Drop)]
pub struct MemIntake {
    bytes: Vec<u8>,
    at: usize,
    piece: u32,
    fails: Vec<u64>,
    calls: u64,
    faults: u64,
}

impl Model for MemIntake {
    ghost use Rattle.std.specs.Prelude.{◌<◌, ◌≤◌, drop, vec_len};
    ghost use Rattle.tk_io.specs.InMemory.{Incoming};

    ghost Value = { Incoming };

    ghost view = { λ m. record {
      left = drop m.at m.bytes.items;
      piece = m.piece;
      fails = m.fails.items;
      calls = m.calls;
      faults = m.faults;
    } };

    ghost invariant = { λ m. (m.at ≤ vec_len m.bytes) × (0 < m.piece) };
}

impl MemIntake {
    /// The stream of these bytes, at most `piece` of them in one call, whose calls with a number in
    /// `fails` fail. It had no call yet.
    pub fn make(alloc: Global, bytes: &[u8], piece: u32, fails: &[u64]) -> Result<MemIntake, Memory>
        requires { 0 < piece }
        ensures { IfOk result (λ m. m ≡ record {
          left = bytes.now;
          piece = piece;
          fails = fails.now;
          calls = 0;
          faults = 0;
        }) }
    {
        Ok(MemIntake {
            bytes: Vec::from_slice(alloc, bytes)?,
            at: 0,
            piece,
            fails: Vec::from_slice(alloc, fails)?,
            calls: 0,
            faults: 0,
        })
    }

    /// How many calls failed.
    pub(crate) fn faults(&self) -> u64
        ensures { result ≡ self.now.faults }
    {
        self.faults
    }
}

impl Intake for MemIntake {
    ghost use Rattle.std.specs.Prelude.{Some};

    ghost left = { λ m. Some m.left };

    ghost faults = { λ m. m.faults };

    /// Fails exactly where the number of this call is among those that fail, and else gives the
    /// least of the piece, the buffer's room and what is left.
    fn read(&mut self, into: &mut [u8]) -> Result<usize, Failed>
        ensures bound { ReadsAtMost result into.new }
        ensures bytes { ReadConsumes (Some self.old.left) (Some self.new.left) result into.new }
        ensures cause { HasCause self.old.faults self.new.faults result }
        ensures fails { IsErr result ↔ Contains self.old.fails (next_call self.old.calls) }
        ensures failed { OnErr result (self.new ≡ failed_read self.old) }
        ensures gives { IfOk result (λ count.
            (count ≡ min (min self.old.piece (length into.old)) (length self.old.left))
            × (self.new ≡ read_of count self.old)) }
    {
        self.calls = self.calls.saturating_add(1);
        if self.fails.contains(&self.calls) {
            self.faults = self.faults.saturating_add(1);
            return Err(Failed);
        }
        let left = &self.bytes[self.at..];
        let count = left.len().min(into.len()).min(self.piece as usize);
        copy_to_front(&left[..count], into);
        self.at += count;
        Ok(count)
    }
}
