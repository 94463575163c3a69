//! Parts of a message, each of which stands at the front of the bytes that came once these are enough.

ghost use Rattle.std.specs.Prelude.{◌≡◌, ℕ, List, OnOk};
ghost use Rattle.wire.specs.LinkTold.{told, Counts};
ghost use Rattle.wire.specs.Parts.{Finds, HasOne, PassesBytes, Takes};
ghost use Rattle.wire.specs.Sparing.{ReadsSparingly, OfRead};

use super::WireFault;
use super::feed::Feed;
use std::alloc::Global;
use tk_io::Intake;

/// A part of a message that stands at the front of bytes.
#[derive(Drop)]
pub(crate) struct Found<T> {
    /// How many bytes it has.
    pub(crate) len: usize,
    /// What it says.
    pub(crate) part: T,
}

/// A kind of part, as the head of a request: its valid trees, the bytes that a tree is printed as, what a tree says, and which bytes pass
/// a limit.
pub(crate) trait MessagePart {
    /// What is told of a part.
    type Said: Drop;

    /// The most bytes that a part may have.
    const LIMIT: u32;

    ghost LIMIT: { ℕ };

    ghost Tree: { Type 0 };

    ghost Valid: { Tree → Type 0 };

    ghost print: { Tree → List ℕ };

    ghost Says: { Tree → Self.Said → Type 0 };

    ghost Passes: { ℕ → List ℕ → Type 0 };

    /// Finds a part at the front of bytes.
    fn find(alloc: Global, came: &[u8]) -> Result<Option<Found<Self::Said>>, WireFault>
        ensures { Finds Valid print Says Passes came.now result };

    ghost beyond: { (bytes : List ℕ) → PassesBytes Valid print LIMIT bytes → Passes LIMIT bytes };
}

/// Takes a part from the front of what came, and reads no more than it needs.
pub(crate) fn take_part<P: MessagePart, R: Intake>(
    alloc: Global,
    link: &mut R,
    feed: &mut Feed,
) -> Result<P::Said, WireFault>
    ensures takes { Takes P.Valid P.print P.Says P.Passes (told feed.old (R.left link.old)) (told feed.new (R.left link.new)) result }
    ensures cause { Counts (R.faults link.old) (R.faults link.new) result }
    ensures apart { R.aside link.new ≡ R.aside link.old }
    ensures sparing { ReadsSparingly (HasOne P.Valid P.print) feed.old (R.pieces link.old) (R.pieces link.new) }
    ensures came { OnOk result (OfRead (λ all rest. Takes P.Valid P.print P.Says P.Passes all rest result) feed.old feed.new (R.pieces link.old) (R.pieces link.new)) }
{
    loop {
        match P::find(alloc, feed.came())? {
            Some(found) => {
                feed.take(found.len);
                return Ok(found.part);
            }
            None => {}
        }
        if feed.came().len() > P::LIMIT as usize {
            return Err(WireFault::TooLong { limit: P::LIMIT });
        }
        if feed.fill(link)? == 0 {
            return Err(WireFault::BadMessage);
        }
    }
}
