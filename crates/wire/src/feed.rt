//! Bytes that came from a link and weren't taken yet.

ghost use Rattle.std.specs.Prelude.{◌≡◌, ◌+◌, ◌≤◌, ◌<◌, ◌++◌, ℕ, List, [], length, drop, IfOk, IfErr, OnOk, OnErr};
ghost use Rattle.std.specs.Io.KnownBytes.{Consumes, IsAtEnd};
ghost use Rattle.wire.specs.LinkTold.{told, SameTold, Counts, IsOutside};
ghost use Rattle.wire.specs.Sparing.{HoldsBytes, ReadsOnce, ReadsSparingly, GrewBy, OfRead, IsPulled};

use super::WireFault;
use std::alloc::Global;
use std::marker::Model;
use tk_io::{Intake, PIECE};

/// The bytes that came from a link and weren't taken yet, which contracts see as their list.
#[derive(Drop)]
pub(crate) struct Feed {
    bytes: Vec<u8>,
    /// How many of them were taken.
    at: usize,
}

impl Model for Feed {
    ghost use Rattle.std.specs.Prelude.{◌≤◌, List, ℕ, drop, vec_len};

    ghost Value = { List ℕ };

    ghost view = { λ f. drop f.at f.bytes.items };

    ghost invariant = { λ f. f.at ≤ vec_len f.bytes };
}

impl Feed {
    /// Nothing came yet.
    pub(crate) fn new(alloc: Global) -> Feed
        ensures { result ≡ [] }
    {
        Feed {
            bytes: Vec::new(alloc),
            at: 0,
        }
    }

    /// The bytes that came and weren't taken.
    pub(crate) fn came(&self) -> &[u8]
        ensures { result.now ≡ self.now }
    {
        &self.bytes[self.at..]
    }

    /// Takes so many bytes from the front.
    pub(crate) fn take(&mut self, count: usize)
        requires { count ≤ length self.old }
        ensures { self.new ≡ drop count self.old }
    {
        self.at += count;
    }

    /// Forgets the bytes that were taken, so that the vector grows with the others alone.
    fn forget(&mut self)
        ensures { self.new ≡ self.old }
    {
        let left = self.bytes.len() - self.at;
        self.bytes.rotate_left(self.at);
        self.bytes.truncate(left);
        self.at = 0;
    }

    /// Reads once from the link, and says how many bytes came: none at the end.
    pub(crate) fn fill<R: Intake>(&mut self, link: &mut R) -> Result<usize, WireFault>
        ensures told { OnOk result (SameTold self.old (R.left link.old) self.new (R.left link.new)) }
        ensures grown { IfOk result (λ count. length self.new ≡ length self.old + count) }
        ensures ended { IfOk result (λ count. count ≡ 0 → IsAtEnd (R.left link.new)) }
        ensures outside { IfErr result IsOutside }
        ensures cause { Counts (R.faults link.old) (R.faults link.new) result }
        ensures apart { R.aside link.new ≡ R.aside link.old }
        ensures once { ReadsOnce (R.pieces link.old) (R.pieces link.new) }
        ensures came { OnOk result (GrewBy self.old self.new (R.pieces link.old) (R.pieces link.new)) }
    {
        self.forget();
        let count = read_to(link, &mut self.bytes, PIECE)?;
        Ok(count)
    }

    /// Moves some bytes to the end of a text, and says how many, at most `most`: of those that came, or
    /// where there is none of those that the link gives in one read. None at the end.
    pub(crate) fn pull<R: Intake>(
        &mut self,
        link: &mut R,
        text: &mut Vec<u8>,
        most: usize,
    ) -> Result<usize, WireFault>
        requires { 0 < most }
        ensures pulled { IfOk result (λ count. (piece : List ℕ)
            × Consumes (told self.old (R.left link.old)) (told self.new (R.left link.new)) piece
            × (text.new.items ≡ text.old.items ++ piece) × (length piece ≡ count) × (count ≤ most)) }
        ensures ended { IfOk result (λ count. count ≡ 0 → IsAtEnd (told self.new (R.left link.new))) }
        ensures outside { IfErr result IsOutside }
        ensures cause { Counts (R.faults link.old) (R.faults link.new) result }
        ensures apart { R.aside link.new ≡ R.aside link.old }
        ensures sparing { ReadsSparingly (HoldsBytes 1) self.old (R.pieces link.old) (R.pieces link.new) }
        ensures came { IfOk result (λ count. OfRead (λ all rest. IsPulled all rest text.old.items text.new.items count) self.old self.new (R.pieces link.old) (R.pieces link.new)) }
    {
        let came = self.came();
        if came.is_empty() {
            return read_to(link, text, most.min(PIECE));
        }
        let count = most.min(came.len());
        text.extend_from_slice(&came[..count])?;
        self.take(count);
        Ok(count)
    }
}

/// Reads once from the link to the end of a text, at most `most` bytes, and says how many came: none at
/// the end.
fn read_to<R: Intake>(link: &mut R, text: &mut Vec<u8>, most: usize) -> Result<usize, WireFault>
    requires some { 0 < most }
    requires piece { most ≤ PIECE }
    ensures given { IfOk result (λ count. (piece : List ℕ) × Consumes (R.left link.old) (R.left link.new) piece
        × (text.new.items ≡ text.old.items ++ piece) × (length piece ≡ count) × (count ≤ most)) }
    ensures ended { IfOk result (λ count. count ≡ 0 → IsAtEnd (R.left link.new)) }
    ensures kept { OnErr result (text.new.items ≡ text.old.items) }
    ensures outside { IfErr result IsOutside }
    ensures cause { Counts (R.faults link.old) (R.faults link.new) result }
    ensures apart { R.aside link.new ≡ R.aside link.old }
    ensures once { ReadsOnce (R.pieces link.old) (R.pieces link.new) }
    ensures came { OnOk result (GrewBy text.old.items text.new.items (R.pieces link.old) (R.pieces link.new)) }
{
    let mut piece = [0; PIECE];
    let Ok(count) = link.read(&mut piece[..most]) else {
        return Err(WireFault::LinkFault);
    };
    let Ok(()) = text.extend_from_slice(&piece[..count]) else {
        return Err(WireFault::Memory);
    };
    Ok(count)
}
