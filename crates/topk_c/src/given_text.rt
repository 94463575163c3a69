//! A text that a caller gives, as an input.

ghost use Rattle.std.specs.Prelude.{◌≡◌};

use std::marker::Model;
use tk_io::{Failed, Intake};

/// Bytes of a caller, read from the first to the last. No read fails. Contracts see the bytes that are left.
#[derive(Drop)]
pub(crate) struct GivenText<'a> {
    left: &'a [u8],
}

impl<'a> Model for GivenText<'a> {
    ghost use Rattle.std.specs.Prelude.{ℕ, List};

    ghost Value = { List ℕ };

    ghost view = { λ t. t.left.now };
}

impl<'a> GivenText<'a> {
    /// These bytes, none of them read yet.
    pub(crate) fn of(bytes: &'a [u8]) -> GivenText<'a>
        ensures { result ≡ bytes.now }
    {
        GivenText { left: bytes }
    }
}

impl<'a> Intake for GivenText<'a> {
    ghost use Rattle.std.specs.Prelude.{Some};

    ghost left = { λ t. Some t };

    ghost faults = { λ _. 0 };

    /// Gives as many bytes as are left and there is room for.
    fn read(&mut self, into: &mut [u8]) -> Result<usize, Failed> {
        let count = self.left.len().min(into.len());
        let (front, rest) = self.left.split_at(count);
        into[..count].copy_from_slice(front);
        self.left = rest;
        Ok(count)
    }
}
