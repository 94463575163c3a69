//! What a batch gives.

ghost use Rattle.std.specs.Prelude.{◌≡◌, ◌==◌, ◌<◌, ◌^◌, length, slice_get, vec_len};
ghost use Rattle.std.specs.Option.{option_map};
ghost use Rattle.batch_result.specs.Batches.{batch_of};

use query_run::Ended;
use std::marker::Model;

/// What was used of a source.
#[derive(Clone, Copy, Debug, PartialEq, Eq)]
pub struct Use {
    /// The rows that the source gave.
    pub rows: u32,
    /// The calls for a grade that the source answered.
    pub grades: u32,
    /// The greatest depth of which a row was wanted, 0 where none was.
    pub want: u32,
    /// The objects whose grade was asked for.
    pub asks: u32,
}

/// How the queries of a batch ended, in their order, and what was used of each source, by the sources' numbers.
#[derive(Drop)]
pub struct Batch {
    endings: Vec<Ended>,
    uses: Vec<Use>,
}

impl Model for Batch {
    ghost use Rattle.std.specs.Prelude.{◌<◌, ◌^◌, vec_len};
    ghost use Rattle.batch_result.specs.Batches.{BatchState, batch_of};

    ghost Value = { BatchState };

    ghost view = { λ a. batch_of a.endings.items a.uses.items };

    ghost invariant = { λ a. (vec_len a.endings < 2 ^ 32) × (vec_len a.uses < 2 ^ 32) };
}

impl Batch {
    /// The batch of these endings and uses.
    pub fn make(endings: Vec<Ended>, uses: Vec<Use>) -> Batch
        requires endings { vec_len endings < 2 ^ 32 }
        requires uses { vec_len uses < 2 ^ 32 }
        ensures { result ≡ batch_of endings.items uses.items }
    {
        Batch { endings, uses }
    }

    /// How many queries there were.
    pub fn len(&self) -> u32
        ensures { result ≡ length self.now.endings }
    {
        self.endings.len() as u32
    }

    /// Whether there were none.
    pub fn is_empty(&self) -> bool
        ensures { result ≡ (length self.now.endings == 0) }
    {
        self.endings.is_empty()
    }

    /// How the query at a place from 0 ended, or None past the end. Takes no memory.
    pub fn outcome(&self, place: u32) -> Option<&Ended>
        ensures { option_map (λ ended. ended.now) result ≡ slice_get self.now.endings place }
    {
        self.endings.get(place as usize)
    }

    /// What was used of the source of a number from 0, or None past the end. Takes no memory.
    pub fn used(&self, source: u32) -> Option<Use>
        ensures { result ≡ slice_get self.now.uses source }
    {
        self.uses.get(source as usize).copied()
    }

    /// How the queries ended, in their order. Takes no memory.
    pub fn into_endings(self) -> Vec<Ended>
        ensures { result.items ≡ self.endings }
    {
        let Batch { endings, uses } = self;
        drop(uses);
        endings
    }
}
