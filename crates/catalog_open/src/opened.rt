//! What became of the sources of a catalog.

ghost use Rattle.std.specs.Prelude.{◌≡◌, IfOk};
ghost use Rattle.catalog_open.specs.Openings.{run_count};
ghost use Rattle.catalog_open.specs.Slots.{HasRoom, IsBare};

use super::Memory;
use fetcher::Slot;
use source_api::Source;
use std::alloc::Global;
use topk_base::MAX_OBJECTS;

/// What became of a source of the catalog.
#[derive(Clone, Copy, Debug)]
pub enum Opening {
    /// It isn't open: no line wants it, or it couldn't be opened.
    Closed,
    /// It is open, and states so many objects at this version; `source` is its number among the open ones.
    Open {
        size: u64,
        source: u32,
        version: u64,
    },
}

/// What became of the sources of a catalog, in its order, and the open ones by their numbers.
#[derive(Drop)]
pub struct OpenSources<S: Source> {
    /// What became of the source of each entry.
    pub openings: Vec<Opening>,
    /// Where each open source stands in the catalog.
    pub places: Vec<u32>,
    /// How many objects it has in a run, 0 where it states more than a list may have.
    pub counts: Vec<u32>,
    /// The source itself, without a feeder.
    pub slots: Vec<Slot<S>>,
}

/// How many objects a source of this size has in a run.
pub(crate) fn run_count(size: u64) -> u32
    ensures { result ≡ run_count size }
{
    if size <= u64::from(MAX_OBJECTS) {
        size as u32
    } else {
        0
    }
}

impl<S: Source> OpenSources<S> {
    /// Nothing is open, and there is room for the sources of so many entries.
    pub(crate) fn with_room(alloc: Global, entries: usize) -> Result<OpenSources<S>, Memory>
        ensures room { IfOk result (HasRoom entries) }
        ensures bare { IfOk result IsBare }
    {
        let openings = Vec::with_capacity(alloc, entries)?;
        let places = Vec::with_capacity(alloc, entries)?;
        let counts = Vec::with_capacity(alloc, entries)?;
        let slots = Vec::with_capacity(alloc, entries)?;
        Ok(OpenSources {
            openings,
            places,
            counts,
            slots,
        })
    }
}
