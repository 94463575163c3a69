//! What bytes are written to.

ghost use Rattle.std.specs.Prelude.{ℕ, ◌≡◌, ◌<◌, List, Option, length, IfOk};
ghost use Rattle.std.specs.Io.{WritesAtMost};
ghost use Rattle.std.specs.Io.KnownBytes.{WriteAppends};
ghost use Rattle.tk_io.specs.Faults.{HasCause};
ghost use Rattle.tk_io.specs.Sides.{Side, no_side};

use super::Failed;

/// A stream of bytes to write to.
///
/// `held` is the bytes that it has taken, where the stream tells them, and `faults` counts the calls
/// that failed. A count stands still at the last value of its type. `aside` is what the
/// object is besides, as a stream to read, of which a write changes nothing.
pub trait Sink {
    ghost held: { Self → Option (List ℕ) };

    ghost faults: { Self → ℕ };

    ghost aside: { Self → Side } = { λ _. no_side };

    /// Takes some bytes from the front of the piece and says how many: at least one where there is
    /// one. A call that fails takes no byte.
    fn write(&mut self, bytes: &[u8]) -> Result<usize, Failed>
        ensures bound { WritesAtMost result bytes.now }
        ensures moves { 0 < length bytes.now → IfOk result (λ count. 0 < count) }
        ensures taken { WriteAppends (held self.old) (held self.new) result bytes.now }
        ensures cause { HasCause (faults self.old) (faults self.new) result }
        ensures apart { aside self.new ≡ aside self.old };
}
