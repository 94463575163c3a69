//! A text that a command writes into memory, as an output.

ghost use Rattle.std.specs.Prelude.{◌≡◌, [], ◌<◌, Some};

use std::alloc::Global;
use std::marker::Model;
use tk_io::{Failed, Sink};

/// All bytes that were written, in memory that grows with them. A write fails where memory is refused.
///
/// Contracts see the bytes and how many writes failed.
#[derive(Drop)]
pub(crate) struct KeptText {
    bytes: Vec<u8>,
    faults: u64,
}

impl Model for KeptText {
    ghost use Rattle.topk_c.specs.Telling.{Kept};

    ghost Value = { Kept };

    ghost view = { λ t. record { bytes = t.bytes.items; faults = t.faults } };
}

impl KeptText {
    /// A text of no byte. Takes no memory.
    pub(crate) fn make(alloc: Global) -> KeptText
        ensures { result ≡ record { bytes = []; faults = 0 } }
    {
        KeptText {
            bytes: Vec::new(alloc),
            faults: 0,
        }
    }

    /// The bytes that were written.
    pub(crate) fn bytes(&self) -> &[u8]
        ensures { result.now ≡ self.now.bytes }
    {
        self.bytes.as_slice()
    }
}

impl Sink for KeptText {
    ghost use Rattle.std.specs.Prelude.{Some};

    ghost held = { λ t. Some t.bytes };

    ghost faults = { λ t. t.faults };

    /// Takes all bytes, or fails where memory is refused.
    fn write(&mut self, bytes: &[u8]) -> Result<usize, Failed> {
        let Ok(()) = self.bytes.extend_from_slice(bytes) else {
            self.faults = self.faults.saturating_add(1);
            return Err(Failed);
        };
        Ok(bytes.len())
    }
}
