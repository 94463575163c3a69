//! Whole texts through streams.

ghost use Rattle.std.specs.Prelude.{◌≡◌, ◌≤◌, ◌<◌, ◌+◌, ◌++◌, List, ℕ, length, IfOk, IfErr, OnOk, OnErr};
ghost use Rattle.std.specs.Io.KnownBytes.{Appends, Consumes, IsAtEnd};
ghost use Rattle.tk_io.specs.Faults.{HasCause};
ghost use Rattle.tk_io.specs.Whole.{GaveAll, StopsReading, StopsPiece, TookFront};

use super::{Failed, Intake, PIECE, Sink};
use std::alloc::Global;

/// Why a stream wasn't read to its end.
#[derive(Clone, Copy, Debug, PartialEq, Eq)]
pub enum ReadError {
    /// A read failed.
    Failed,
    /// More bytes came than the limit allows.
    Long,
    /// No memory was left.
    Memory,
}

/// Reads a stream to its end, of at most `limit` bytes. No more than one byte beyond the limit is
/// asked for, so a stream that gives more is too long whatever becomes of it. After an error some
/// bytes may have been read.
pub fn read_text<R: Intake>(alloc: Global, input: &mut R, limit: u64) -> Result<Vec<u8>, ReadError>
    ensures counts { R.faults input.old ≤ R.faults input.new }
    ensures whole { IfOk result (λ text. GaveAll limit (R.left input.old) (R.left input.new) text.items) }
    ensures quiet { OnOk result (R.faults input.new ≡ R.faults input.old) }
    ensures stopped { IfErr result (StopsReading limit (R.left input.old) (R.left input.new)
        (R.faults input.old) (R.faults input.new)) }
    ensures apart { R.aside input.new ≡ R.aside input.old }
{
    let mut text = Vec::new(alloc);
    while text.len() as u64 <= limit {
        let most = asked(limit, text.len() as u64);
        if read_piece(input, &mut text, most)? == 0 {
            return Ok(text);
        }
    }
    Err(ReadError::Long)
}

/// How many bytes the next read is asked for, after `count` bytes: at most one beyond the limit.
fn asked(limit: u64, count: u64) -> usize
    ensures some { 0 < result }
    ensures piece { result ≤ PIECE }
    ensures within { count ≤ limit → count + result ≤ limit + 1 }
{
    let left = limit.saturating_sub(count);
    left.min(PIECE as u64 - 1) as usize + 1
}

/// Reads once, at most `most` bytes, and puts what came at the end of the text. 0 is the end of the
/// stream.
pub fn read_piece<R: Intake>(
    input: &mut R,
    text: &mut Vec<u8>,
    most: usize,
) -> Result<usize, ReadError>
    requires some { 0 < most }
    requires piece { most ≤ PIECE }
    ensures given { (piece : List ℕ) × Consumes (R.left input.old) (R.left input.new) piece × (length piece ≤ most)
        × IfOk result (λ count. (length piece ≡ count) × (text.new.items ≡ text.old.items ++ piece)) }
    ensures ended { IfOk result (λ count. count ≡ 0 → IsAtEnd (R.left input.new)) }
    ensures counts { R.faults input.old ≤ R.faults input.new }
    ensures stopped { IfErr result (StopsPiece (R.left input.old) (R.left input.new) (R.faults input.old) (R.faults input.new)) }
    ensures quiet { OnOk result (R.faults input.new ≡ R.faults input.old) }
    ensures apart { R.aside input.new ≡ R.aside input.old }
{
    let mut piece = [0; PIECE];
    let Ok(count) = input.read(&mut piece[..most]) else {
        return Err(ReadError::Failed);
    };
    let Ok(()) = text.extend_from_slice(&piece[..count]) else {
        return Err(ReadError::Memory);
    };
    Ok(count)
}

/// Writes the whole text. After a failure a front of it was written.
pub fn write_text<K: Sink>(out: &mut K, text: &[u8]) -> Result<(), Failed>
    ensures whole { OnOk result (Appends (K.held out.old) (K.held out.new) text.now) }
    ensures front { OnErr result (TookFront (K.held out.old) (K.held out.new) text.now) }
    ensures cause { HasCause (K.faults out.old) (K.faults out.new) result }
    ensures apart { K.aside out.new ≡ K.aside out.old }
{
    let mut done = 0;
    while done < text.len() {
        done += out.write(&text[done..])?;
    }
    Ok(())
}
