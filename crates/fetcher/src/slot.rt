//! A source with its feeder.

ghost use Rattle.std.specs.Prelude.{◌≡◌, None};

use super::turned::Fetched;
use source_api::Source;
use source_pool::Feeder;

/// A source, its feeder while a run goes on, and what was fetched of it.
pub struct Slot<S: Source> {
    pub source: S,
    pub feeder: Option<Feeder>,
    pub fetched: Fetched,
}

/// Written here, and not derived, so that a crate that lets a slot go calls this.
impl<S: Source> Drop for Slot<S> {
    fn drop(self) {
        let Slot {
            source: _source,
            feeder: _feeder,
            fetched: _,
        } = self;
    }
}

impl<S: Source> Slot<S> {
    /// A source without a feeder, of which nothing was fetched.
    pub fn make(source: S) -> Slot<S>
        ensures { result ≡ record { source = source; feeder = None; fetched = record { rows = 0; grades = 0 } } }
    {
        Slot {
            source,
            feeder: None,
            fetched: Fetched { rows: 0, grades: 0 },
        }
    }

    /// The source. The slot has no feeder.
    pub fn into_source(self) -> S
        requires { self.feeder ≡ None }
        ensures { result ≡ self.source }
    {
        let Slot {
            source,
            feeder: _feeder,
            fetched: _,
        } = self;
        source
    }
}
