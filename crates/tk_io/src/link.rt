//! What is read from and written to.

ghost use Rattle.std.specs.Prelude.{◌≡◌, None};

use super::{Intake, Sink};

/// A stream of bytes in both directions, as a connection.
///
/// A read changes nothing of what is written, nor a write of what is to be read: what the stream is
/// aside from its reads is what it is to its writes, and the other way round.
pub trait Link: Intake + Sink {
    /// Lets the link go. What it has taken still arrives, where the other end takes it.
    fn close(self)
    where
        Self: Sized + Drop,
    {
        drop(self);
    }

    ghost reads_apart: { (l : Self) → Self.Intake.aside l ≡ record { bytes = Self.held l; faults = Self.Sink.faults l; pieces = None } };

    ghost writes_apart: { (l : Self) → Self.Sink.aside l ≡ record { bytes = Self.left l; faults = Self.Intake.faults l; pieces = Self.pieces l } };
}
