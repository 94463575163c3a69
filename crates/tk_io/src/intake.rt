//! What bytes are read from.

ghost use Rattle.std.specs.Prelude.{ℕ, ◌≡◌, List, [], ◌∷◌, Option, None, take, IfOk, OnErr};
ghost use Rattle.std.specs.Io.{ReadsAtMost};
ghost use Rattle.std.specs.Io.KnownBytes.{ReadConsumes};
ghost use Rattle.tk_io.specs.Calls.{with_more};
ghost use Rattle.tk_io.specs.Faults.{HasCause};
ghost use Rattle.tk_io.specs.Sides.{Side, no_side};

use super::Failed;

/// A stream of bytes to read.
///
/// `left` is the bytes that are still to come, where the stream tells them, and `faults` counts the
/// calls that failed. A count stands still at the last value of its type. `aside` is what the
/// object is besides, as a stream to write to, of which a read changes nothing. `pieces` is what each
/// read gave that didn't fail, in their order, where the stream tells it.
pub trait Intake {
    ghost left: { Self → Option (List ℕ) };

    ghost faults: { Self → ℕ };

    ghost aside: { Self → Side } = { λ _. no_side };

    ghost pieces: { Self → Option (List (List ℕ)) } = { λ _. None };

    /// Reads some bytes into the front of the buffer and says how many. 0 for a buffer with room is
    /// the end of the stream. A call that fails gives no byte.
    fn read(&mut self, into: &mut [u8]) -> Result<usize, Failed>
        ensures bound { ReadsAtMost result into.new }
        ensures bytes { ReadConsumes (left self.old) (left self.new) result into.new }
        ensures cause { HasCause (faults self.old) (faults self.new) result }
        ensures apart { aside self.new ≡ aside self.old }
        ensures piece { IfOk result (λ count. pieces self.new ≡ with_more (take count into.new ∷ []) (pieces self.old)) }
        ensures unread { OnErr result (pieces self.new ≡ pieces self.old) };
}
