//! What is kept of the seen objects.

ghost use Rattle.std.specs.Prelude.{◌≡◌, ◌≤◌, ℕ, [], IfOk};
ghost use Rattle.monotone_fn.specs.Tree.{Tree};
ghost use Rattle.monotone_fn.specs.Value.{value};
ghost use Rattle.nra_core.specs.Quiet.{is_quiet_seen};
ghost use Rattle.machine_base.specs.Base.{Holds};
ghost use Rattle.ca_core.specs.Seen.{AreRenewed, KeepsSeen, WasRenewed};

use super::open_highs::OpenHighs;
use machine_base::{Base, Memory};
use nra_core::LateBounds;
use std::alloc::Global;
use topk_base::MAX_OBJECTS;

/// The bounds that decide the stop, and the highs that decide a random phase, both renewed late.
#[derive(Drop)]
pub(crate) struct LateSeen {
    pub bounds: LateBounds,
    pub highs: OpenHighs,
}

impl LateSeen {
    /// Before any access, over so many lists and with room for so many seen objects.
    pub(crate) fn make(alloc: Global, k: u32, lists: u8, room: u32) -> Result<LateSeen, Memory>
        requires asked { 1 ≤ k }
        requires few { k ≤ MAX_OBJECTS }
        requires room { room ≤ MAX_OBJECTS }
        ensures { IfOk result (λ late. (e : Tree) → AreRenewed e k room lists [] late) }
    {
        let Ok(bounds) = LateBounds::make(alloc, k, room) else {
            return Err(Memory);
        };
        let Ok(highs) = OpenHighs::make(alloc, lists, room) else {
            drop(bounds);
            return Err(Memory);
        };
        Ok(LateSeen { bounds, highs })
    }

    /// Takes note of the access that was told last, which named this object.
    pub(crate) fn note(&mut self, base: &Base, object: u32)
        requires held { Holds base.now }
        requires before { WasRenewed base.now object self.old }
        ensures { KeepsSeen base.now self.new }
    {
        self.bounds.note(&base.expr, &base.transcript, object);
        self.highs.note(&base.expr, &base.transcript, object);
    }

    /// Whether all is quiet: enough objects are seen, and none outside the first k is viable.
    pub(crate) fn is_quiet(&mut self, base: &Base) -> bool
        requires held { Holds base.now }
        requires before { KeepsSeen base.now self.old }
        ensures quiet { result ≡ is_quiet_seen (value base.now.expr) base.now.k base.now.transcript.lists
            base.now.transcript.count base.now.transcript.accesses }
        ensures kept { KeepsSeen base.now self.new }
    {
        self.bounds.is_quiet(&base.expr, &base.transcript)
    }
}
