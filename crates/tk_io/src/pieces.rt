//! Texts written in pieces.

ghost use Rattle.std.specs.Prelude.{◌≡◌, ◌-◌, ◌++◌, [], length, take, min, decimal, OnOk, OnErr, Some};
ghost use Rattle.std.specs.Io.KnownBytes.{Appends};
ghost use Rattle.arrayvec.specs.ArrayVec.{array_vec_len};
ghost use Rattle.tk_io.specs.Faults.{HasCause};
ghost use Rattle.tk_io.specs.Pieces.{Sends, Ends, WaitsWhole};
ghost use Rattle.tk_io.specs.Whole.{TookFront};

use super::{Failed, Sink, write_text};
use arrayvec::ArrayVec;
use itoa::Buffer;
use std::marker::Model;

/// How many bytes are read at once at most, and written at once. Only the last piece of a text that is
/// written may have fewer.
pub const PIECE: usize = 8192;

/// A text on its way to a stream, which gets it in pieces of `PIECE` bytes: the bytes that wait until
/// there are enough of them. It has room for these in itself, so it takes no memory.
///
/// Contracts see it as the bytes that wait, or as `None` once a write has failed. From then on
/// nothing is written, and `end` says so.
#[derive(Drop)]
pub(crate) struct Pieces {
    waiting: ArrayVec<u8, PIECE>,
    failed: bool,
}

impl Model for Pieces {
    ghost use Rattle.std.specs.Prelude.{ℕ, List, Option, Some, None, if◌then◌else◌};

    ghost Value = { Option (List ℕ) };

    ghost view = { λ p. (if p.failed then None else Some p.waiting.items) };
}

impl Pieces {
    /// A text of which no byte waits yet.
    pub(crate) fn make() -> Pieces
        ensures { result ≡ Some [] }
    {
        Pieces {
            waiting: ArrayVec::new(),
            failed: false,
        }
    }

    /// Puts a part of the text behind the bytes that wait. Where both fit into one piece, nothing is
    /// written yet.
    pub(crate) fn put<K: Sink>(&mut self, out: &mut K, text: &[u8])
        ensures sends { Sends (K.held out.old) (K.held out.new) (K.faults out.old) (K.faults out.new) self.old self.new text.now }
        ensures waits { WaitsWhole PIECE (K.held out.old) (K.held out.new) self.old self.new text.now }
        ensures apart { K.aside out.new ≡ K.aside out.old }
    {
        if self.failed {
            return;
        }
        let mut done = 0;
        while done < text.len() {
            if self.waiting.is_full() {
                if send(&mut self.waiting, out).is_err() {
                    self.failed = true;
                    return;
                }
            }
            done += fill(&mut self.waiting, &text[done..]);
        }
    }

    /// Puts a number in decimal behind the bytes that wait.
    pub(crate) fn put_number<K: Sink>(&mut self, out: &mut K, number: u64)
        ensures sends { Sends (K.held out.old) (K.held out.new) (K.faults out.old) (K.faults out.new) self.old self.new (decimal number) }
        ensures waits { WaitsWhole PIECE (K.held out.old) (K.held out.new) self.old self.new (decimal number) }
        ensures apart { K.aside out.new ≡ K.aside out.old }
    {
        let mut digits = Buffer::new();
        self.put(out, digits.format(number).as_bytes());
    }

    /// Writes the bytes that wait. It fails where this or an earlier write failed.
    pub(crate) fn end<K: Sink>(mut self, out: &mut K) -> Result<(), Failed>
        ensures ends { Ends (K.held out.old) (K.held out.new) (K.faults out.old) (K.faults out.new) self result }
        ensures apart { K.aside out.new ≡ K.aside out.old }
    {
        if self.failed {
            return Err(Failed);
        }
        send(&mut self.waiting, out)
    }
}

/// Puts as much of a text as there is room for behind the bytes that wait, and says how much.
fn fill(waiting: &mut ArrayVec<u8, PIECE>, text: &[u8]) -> usize
    ensures count { result ≡ min (length text.now) (PIECE - array_vec_len waiting.old) }
    ensures filled { waiting.new.items ≡ waiting.old.items ++ take result text.now }
{
    let count = text.len().min(waiting.remaining_capacity());
    let Ok(()) = waiting.try_extend_from_slice(&text[..count]) else {
        unreachable!();
    };
    count
}

/// Writes the bytes that wait, so that none waits.
fn send<K: Sink>(waiting: &mut ArrayVec<u8, PIECE>, out: &mut K) -> Result<(), Failed>
    ensures whole { OnOk result (Appends (K.held out.old) (K.held out.new) waiting.old.items) }
    ensures empty { OnOk result (waiting.new.items ≡ []) }
    ensures front { OnErr result (TookFront (K.held out.old) (K.held out.new) waiting.old.items) }
    ensures cause { HasCause (K.faults out.old) (K.faults out.new) result }
    ensures apart { K.aside out.new ≡ K.aside out.old }
{
    write_text(out, waiting.as_slice())?;
    waiting.clear();
    Ok(())
}
