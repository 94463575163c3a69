//! The text of what became of a query line, in memory.

ghost use Rattle.std.specs.Prelude.{◌≡◌, IfOk};
ghost use Rattle.line_outcome.specs.LineOutcomes.{CanBeWritten};
ghost use Rattle.server_conn.specs.Becoming.{line_text};

use cert_text::write_outcome;
use query_admission::{LineOutcome, Memory};
use std::alloc::Global;
use tk_io::{Failed, Sink};

/// All bytes that were written, in memory that grows with them. A write fails where memory is refused.
#[derive(Drop)]
pub(crate) struct Text {
    bytes: Vec<u8>,
    faults: u64,
}

impl Sink for Text {
    ghost use Rattle.std.specs.Prelude.{Some};

    ghost held = { λ t. Some t.bytes.items };

    ghost faults = { λ t. t.faults };

    /// Takes all bytes, or fails where memory is refused.
    fn write(&mut self, bytes: &[u8]) -> Result<usize, Failed> {
        let Ok(()) = self.bytes.extend_from_slice(bytes) else {
            self.faults = self.faults.saturating_add(1);
            return Err(Failed);
        };
        Ok(bytes.len())
    }
}

/// The text of what became of the line of a request.
pub(crate) fn line_text(alloc: Global, line: &LineOutcome) -> Result<Vec<u8>, Memory>
    requires { CanBeWritten line.now }
    ensures { IfOk result (λ text. text.items ≡ line_text line.now) }
{
    let mut text = Text {
        bytes: Vec::new(alloc),
        faults: 0,
    };
    let written = write_outcome(
        &mut text,
        1,
        line.query.as_ref(),
        line.count,
        line.versions.as_slice(),
        &line.outcome,
    );
    let Text { bytes, .. } = text;
    match written {
        Ok(()) => Ok(bytes),
        Err(_) => {
            drop(bytes);
            Err(Memory)
        }
    }
}
