//! Where texts are put.

ghost use Rattle.std.specs.Prelude.{◌≡◌, [], decimal, Some};
ghost use Rattle.tk_io.specs.Pieces.{Puts, Ends, WaitsWhole, Written, written_to};

use super::pieces::Pieces;
use super::{Failed, PIECE, Sink};

/// What texts are put to, one behind another. `at` is what it holds and what waits.
pub trait Put {
    ghost at: { Self → Written };

    /// Puts a text behind the bytes that wait.
    fn put(&mut self, text: &[u8])
        ensures puts { Puts (at self.old) (at self.new) text.now };

    /// Puts a number in decimal behind the bytes that wait.
    fn put_number(&mut self, number: u64)
        ensures puts { Puts (at self.old) (at self.new) (decimal number) };
}

/// A text on its way to a stream, which gets it in pieces of `PIECE` bytes. It takes no memory. Once a write has failed nothing is written
/// any more, and `end` says so.
#[derive(Drop)]
pub struct Writer<'s, K: Sink> {
    out: &'s mut K,
    pieces: Pieces,
}

impl<'s, K: Sink> Writer<'s, K> {
    /// A text to this stream, of which no byte waits yet.
    pub fn make(out: &'s mut K) -> Writer<'s, K>
        ensures same_reference { result.out.ghost_name ≡ out.entry.ghost_name }
        ensures begins { result.out.now ≡ out.old }
        ensures none { result.pieces ≡ Some [] }
    {
        Writer {
            out,
            pieces: Pieces::make(),
        }
    }

    /// Writes the bytes that wait. It fails where this or an earlier write failed.
    pub fn end(self) -> Result<(), Failed>
        ensures ends { Ends (K.held self.entry.out.now) (K.held self.exit.0.now) (K.faults self.entry.out.now) (K.faults self.exit.0.now)
            self.entry.pieces result }
        ensures apart { K.aside self.exit.0.now ≡ K.aside self.entry.out.now }
    {
        let Writer { out, pieces } = self;
        pieces.end(out)
    }
}

impl<'s, K: Sink> Put for Writer<'s, K> {
    ghost at = { λ w. written_to K.held K.faults K.aside w.out w.pieces };

    /// Puts a text behind the bytes that wait. Where both fit into one piece, nothing is written yet.
    fn put(&mut self, text: &[u8])
        ensures puts { Puts (written_to K.held K.faults K.aside self.old.out self.old.pieces)
            (written_to K.held K.faults K.aside self.new.out self.new.pieces) text.now }
        ensures waits { WaitsWhole PIECE (K.held self.old.out.now) (K.held self.new.out.now) self.old.pieces self.new.pieces text.now }
    {
        self.pieces.put(self.out, text)
    }

    /// Puts a number in decimal behind the bytes that wait. Where both fit into one piece, nothing is written yet.
    fn put_number(&mut self, number: u64)
        ensures puts { Puts (written_to K.held K.faults K.aside self.old.out self.old.pieces)
            (written_to K.held K.faults K.aside self.new.out self.new.pieces) (decimal number) }
        ensures waits { WaitsWhole PIECE (K.held self.old.out.now) (K.held self.new.out.now) self.old.pieces self.new.pieces (decimal number) }
    {
        self.pieces.put_number(self.out, number)
    }
}
