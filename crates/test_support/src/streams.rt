//! A stream that keeps nothing.

use tk_io::{Failed, Sink};

/// A stream that counts its writes and the bytes of all of them.
#[derive(Drop)]
pub struct Counting {
    /// How often it was written to.
    pub writes: u64,
    /// How many bytes were written.
    pub bytes: u64,
}

impl Counting {
    /// No write yet.
    pub fn make() -> Counting {
        Counting {
            writes: 0,
            bytes: 0,
        }
    }
}

impl Sink for Counting {
    ghost use Rattle.std.specs.Prelude.{None};

    ghost held = { λ _. None };

    ghost faults = { λ _. 0 };

    fn write(&mut self, bytes: &[u8]) -> Result<usize, Failed> {
        self.writes = self.writes.saturating_add(1);
        self.bytes = self.bytes.saturating_add(bytes.len() as u64);
        Ok(bytes.len())
    }
}
