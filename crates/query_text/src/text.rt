//! A text in memory that is written to.

ghost use Rattle.std.specs.Prelude.{◌≡◌, []};

use std::alloc::Global;
use tk_io::{Failed, Sink};

/// A text in memory. A write fails where memory is refused.
#[derive(Drop)]
pub(crate) struct Text {
    bytes: Vec<u8>,
    faults: u64,
}

impl Text {
    /// An empty text.
    pub(crate) fn new(alloc: Global) -> Text
        ensures { result.bytes.items ≡ [] }
    {
        Text {
            bytes: Vec::new(alloc),
            faults: 0,
        }
    }

    /// The bytes of the text.
    pub(crate) fn into_vec(self) -> Vec<u8>
        ensures { result.items ≡ self.bytes.items }
    {
        self.bytes
    }
}

impl Sink for Text {
    ghost use Rattle.std.specs.Prelude.{Some};

    ghost held = { λ t. Some t.bytes.items };

    ghost faults = { λ t. t.faults };

    fn write(&mut self, bytes: &[u8]) -> Result<usize, Failed> {
        if self.bytes.extend_from_slice(bytes).is_err() {
            self.faults = self.faults.saturating_add(1);
            return Err(Failed);
        }
        Ok(bytes.len())
    }
}
