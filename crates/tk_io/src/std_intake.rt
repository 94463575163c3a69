//! A real stream to read.

ghost use Rattle.std.specs.Prelude.{◌≡◌};
ghost use Rattle.std.specs.Io.{ReadsAtMost};
ghost use Rattle.std.specs.Io.KnownBytes.{ReadConsumes};

use super::{Failed, Intake};
use std::io::{ErrorKind, Read};
use std::marker::Model;

/// Bytes that std reads from the outside. What is left is what the reader has left, where the reader
/// tells it. std's readers of files, pipes and terminals tell nothing: they are the trusted edge.
/// Contracts see it as the reader and the count of faults.
#[derive(Drop)]
pub struct StdIntake<R: Read + Drop> {
    reader: R,
    faults: u64,
}

impl<R: Read + Drop> Model for StdIntake<R> {
    ghost use Rattle.tk_io.specs.Outside.{Outside, outside_code};

    ghost Value = { Outside R };

    ghost coded = { outside_code R.code };

    ghost view = { λ s. record { stream = s.reader; faults = s.faults } };
}

impl<R: Read + Drop> StdIntake<R> {
    /// The stream that this reader reads. It had no fault yet.
    pub fn make(reader: R) -> StdIntake<R>
        ensures { result ≡ record { stream = reader; faults = 0 } }
    {
        StdIntake { reader, faults: 0 }
    }
}

impl<R: Read + Drop> Intake for StdIntake<R> {
    ghost left = { λ s. R.remaining s.stream };

    ghost faults = { λ s. s.faults };

    /// Reads once, and again where the call was interrupted. Any other error is a fault.
    fn read(&mut self, into: &mut [u8]) -> Result<usize, Failed> {
        let read = read_once(&mut self.reader, into);
        if read.is_err() {
            self.faults = self.faults.saturating_add(1);
        }
        read
    }
}

/// Reads once, and again where the call was interrupted.
pub(crate) fn read_once<R: Read>(reader: &mut R, into: &mut [u8]) -> Result<usize, Failed>
    ensures bound { ReadsAtMost result into.new }
    ensures bytes { ReadConsumes (R.remaining reader.old) (R.remaining reader.new) result into.new }
{
    for _ in 0..u64::MAX {
        match reader.read(into) {
            Ok(count) => return Ok(count),
            Err(error) => {
                if error.kind() != ErrorKind::Interrupted {
                    break;
                }
            }
        }
    }
    Err(Failed)
}
