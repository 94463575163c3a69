//! What is kept of the objects that have an unknown grade.

ghost use Rattle.std.specs.Prelude.{◌≡◌, ◌≤◌, ℕ, [], length, IfOk};
ghost use Rattle.monotone_fn.specs.Tree.{Tree};
ghost use Rattle.monotone_fn.specs.Shape.{list_count};
ghost use Rattle.monotone_fn.specs.Value.{value};
ghost use Rattle.access_log.specs.Log.{IsConsistent};
ghost use Rattle.ca_core.specs.Open.{AreOpen, KeepsOpen, WasOpen};

use super::kept_high::KeptHigh;
use super::ties::Ties;
use access_log::Transcript;
use containers::IndexedHeap;
use machine_base::next_unknown;
use monotone_fn::Expr;
use std::alloc::Global;
use topk_base::{MAX_OBJECTS, Memory};

/// The seen objects that have an unknown grade, by their places in the order of first sight: each has a kept high
/// that is at least its present one, or is tied at the cap of a list.
#[derive(Drop)]
pub struct OpenHighs {
    pub highs: IndexedHeap<KeptHigh>,
    pub ties: Ties,
}

impl OpenHighs {
    /// Before any access, with room for so many seen objects. No other call takes memory.
    pub fn make(alloc: Global, lists: u8, room: u32) -> Result<OpenHighs, Memory>
        requires { room ≤ MAX_OBJECTS }
        ensures room { IfOk result (λ kept. length kept.highs ≡ room) }
        ensures kept { IfOk result (λ kept. (e : Tree) → AreOpen (value e) lists [] kept.highs kept.ties.heaps.items) }
    {
        let Ok(highs) = IndexedHeap::make(alloc, room) else {
            return Err(Memory);
        };
        let Ok(ties) = Ties::make(alloc, lists, room) else {
            drop(highs);
            return Err(Memory);
        };
        Ok(OpenHighs { highs, ties })
    }

    /// Takes note of the access that the transcript was told last, which named this object. A high is computed for
    /// an object that has none.
    ///
    /// *Cost*: at most one bound, and at most a logarithm.
    pub fn note(&mut self, expr: &Expr, transcript: &Transcript, object: u32)
        requires lists { transcript.now.lists ≡ list_count expr.now }
        requires agrees { IsConsistent transcript.now }
        requires before { WasOpen expr.now transcript.now object self.old }
        ensures room { length self.new.highs ≡ length self.old.highs }
        ensures kept { KeepsOpen expr.now transcript.now self.new }
    {
        let Some(place) = transcript.sight_of(object) else {
            return;
        };
        if next_unknown(transcript, object).is_none() {
            self.highs.remove(place);
            return;
        }
        if !self.highs.contains(place) {
            let high = transcript.high(expr, object);
            self.highs.put(place, KeptHigh { high, object });
        }
    }
}
