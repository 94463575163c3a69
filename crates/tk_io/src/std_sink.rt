//! A real stream to write to.

ghost use Rattle.std.specs.Prelude.{◌≡◌, ◌<◌, length, IfOk};
ghost use Rattle.std.specs.Io.{WritesAtMost};
ghost use Rattle.std.specs.Io.KnownBytes.{WriteAppends};

use super::{Failed, Sink};
use std::io::{ErrorKind, Write};
use std::marker::Model;

/// Bytes that std writes to the outside. What it holds is what the writer took, where the writer tells
/// it. std's writers to files, pipes and terminals tell nothing: they are the trusted edge. Contracts
/// see it as the writer and the count of faults.
#[derive(Drop)]
pub struct StdSink<W: Write + Drop> {
    writer: W,
    faults: u64,
}

impl<W: Write + Drop> Model for StdSink<W> {
    ghost use Rattle.tk_io.specs.Outside.{Outside, outside_code};

    ghost Value = { Outside W };

    ghost coded = { outside_code W.code };

    ghost view = { λ s. record { stream = s.writer; faults = s.faults } };
}

impl<W: Write + Drop> StdSink<W> {
    /// The stream that this writer writes. It had no fault yet.
    pub fn make(writer: W) -> StdSink<W>
        ensures { result ≡ record { stream = writer; faults = 0 } }
    {
        StdSink { writer, faults: 0 }
    }
}

impl<W: Write + Drop> Sink for StdSink<W> {
    ghost held = { λ s. W.contents s.stream };

    ghost faults = { λ s. s.faults };

    /// Writes once, and again where the call was interrupted. Any other error is a fault, and so is a
    /// write that takes nothing of a piece.
    fn write(&mut self, bytes: &[u8]) -> Result<usize, Failed> {
        let written = write_once(&mut self.writer, bytes);
        if written.is_err() {
            self.faults = self.faults.saturating_add(1);
        }
        written
    }
}

/// Writes once, and again where the call was interrupted.
pub(crate) fn write_once<W: Write>(writer: &mut W, bytes: &[u8]) -> Result<usize, Failed>
    ensures bound { WritesAtMost result bytes.now }
    ensures moves { 0 < length bytes.now → IfOk result (λ count. 0 < count) }
    ensures taken { WriteAppends (W.contents writer.old) (W.contents writer.new) result bytes.now }
{
    for _ in 0..u64::MAX {
        match writer.write(bytes) {
            Ok(count) => {
                if count == 0 && !bytes.is_empty() {
                    break;
                }
                return Ok(count);
            }
            Err(error) => {
                if error.kind() != ErrorKind::Interrupted {
                    break;
                }
            }
        }
    }
    Err(Failed)
}
