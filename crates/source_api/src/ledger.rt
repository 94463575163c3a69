//! What a shelf counts, place by place.

ghost use Rattle.std.specs.Prelude.{◌≡◌, [], true, List, ℕ, position, OnOk, OnErr};
ghost use Rattle.std.specs.Str.{bytes_eq};
ghost use Rattle.source_api.specs.Places.{nothing_at, counts_at, is_known, SameAtEach, SameElsewhere, IsTextFault, IsTakeFault, IsTaking, put_back_at};

use super::{Counts, Memory};
use std::alloc::Global;
use std::marker::Model;

/// What a shelf counts at one place. Each count stands still at the last value of its type.
#[derive(Clone, Copy, Debug)]
pub struct PlaceCounts {
    /// Calls for the text that failed.
    pub text_faults: u64,
    /// Calls that should have taken a source and failed.
    pub take_faults: u64,
    /// Sources that were taken.
    pub taken: u64,
    /// Sources that were put back.
    pub returned: u64,
    /// What the sources counted that were put back.
    pub sources: Counts,
}

impl PlaceCounts {
    /// Nothing counted yet.
    pub fn none() -> PlaceCounts
        ensures { result ≡ nothing_at }
    {
        PlaceCounts {
            text_faults: 0,
            take_faults: 0,
            taken: 0,
            returned: 0,
            sources: Counts::none(),
        }
    }
}

/// A place and what is counted there.
#[derive(Drop)]
struct Entry {
    place: Vec<u8>,
    counts: PlaceCounts,
}

/// The counts of a shelf by place. A place of which nothing is kept has counted nothing.
#[derive(Drop)]
pub struct Ledger {
    entries: Vec<Entry>,
}

impl Model for Ledger {
    ghost use Rattle.std.specs.Prelude.{List};
    ghost use Rattle.source_api.specs.Places.{Noted};

    ghost Value = { List Noted };

    ghost use Rattle.source_api.specs.Entries.{noted_entries};

    ghost view = { λ l. noted_entries l.entries.items };
}

impl Ledger {
    /// A ledger that knows no place. Takes no memory yet.
    pub fn make(alloc: Global) -> Ledger
        ensures { result ≡ [] }
    {
        Ledger {
            entries: Vec::new(alloc),
        }
    }

    /// What is counted at a place.
    pub fn at(&self, place: &str) -> PlaceCounts
        ensures { result ≡ counts_at self.now place.now }
    {
        match entry_at(&self.entries, place.as_bytes()) {
            Some(at) => self.entries[at].counts,
            None => PlaceCounts::none(),
        }
    }

    /// Makes room for the counts of a place, unless it is there. Where memory is refused nothing has
    /// changed.
    fn know(&mut self, alloc: Global, place: &str) -> Result<(), Memory>
        ensures known { OnOk result (is_known self.new place.now ≡ true) }
        ensures still { (other : List ℕ) → is_known self.old other ≡ true → is_known self.new other ≡ true }
        ensures same { SameAtEach (counts_at self.old) (counts_at self.new) }
        ensures refused { OnErr result (self.new ≡ self.old) }
    {
        if entry_at(&self.entries, place.as_bytes()).is_some() {
            return Ok(());
        }
        let place = Vec::from_slice(alloc, place.as_bytes())?;
        self.entries.push(Entry {
            place,
            counts: PlaceCounts::none(),
        })?;
        Ok(())
    }

    /// Counts a call for the text of a place that failed. Where memory is refused nothing has changed.
    pub fn count_text_fault(&mut self, alloc: Global, place: &str) -> Result<(), Memory>
        ensures ok { OnOk result (IsTextFault self.old self.new place.now) }
        ensures err { OnErr result (self.new ≡ self.old) }
    {
        self.know(alloc, place)?;
        let mut counts = self.at(place);
        counts.text_faults = counts.text_faults.saturating_add(1);
        self.set(place, counts);
        Ok(())
    }

    /// Counts a call that should have taken the source of a place and failed. Where memory is refused
    /// nothing has changed.
    pub fn count_take_fault(&mut self, alloc: Global, place: &str) -> Result<(), Memory>
        ensures ok { OnOk result (IsTakeFault self.old self.new place.now) }
        ensures err { OnErr result (self.new ≡ self.old) }
    {
        self.know(alloc, place)?;
        let mut counts = self.at(place);
        counts.take_faults = counts.take_faults.saturating_add(1);
        self.set(place, counts);
        Ok(())
    }

    /// Counts a source that is taken of a place, which is known from then on. Where memory is refused
    /// nothing has changed.
    pub fn count_taken(&mut self, alloc: Global, place: &str) -> Result<(), Memory>
        ensures ok { OnOk result (IsTaking self.old self.new place.now) }
        ensures err { OnErr result (self.new ≡ self.old) }
    {
        self.know(alloc, place)?;
        let mut counts = self.at(place);
        counts.taken = counts.taken.saturating_add(1);
        self.set(place, counts);
        Ok(())
    }

    /// Whether counts of a place are kept.
    pub fn knows(&self, place: &str) -> bool
        ensures { result ≡ is_known self.now place.now }
    {
        entry_at(&self.entries, place.as_bytes()).is_some()
    }

    /// Counts a source that is put back at a place, and adds what it counted to the counts there. Where
    /// the place isn't known nothing changes.
    pub fn add_source(&mut self, place: &str, source: Counts)
        ensures here { counts_at self.new place.now ≡ put_back_at (is_known self.old place.now) source (counts_at self.old place.now) }
        ensures elsewhere { SameElsewhere place.now (counts_at self.old) (counts_at self.new) }
        ensures known { (other : List ℕ) → is_known self.new other ≡ is_known self.old other }
    {
        if !self.knows(place) {
            return;
        }
        let mut counts = self.at(place);
        counts.returned = counts.returned.saturating_add(1);
        counts.sources.add(source);
        self.set(place, counts);
    }

    /// Puts the counts of a place that is known in place of those that were there.
    fn set(&mut self, place: &str, counts: PlaceCounts)
        requires { is_known self.old place.now ≡ true }
        ensures here { counts_at self.new place.now ≡ counts }
        ensures elsewhere { SameElsewhere place.now (counts_at self.old) (counts_at self.new) }
        ensures known { (other : List ℕ) → is_known self.new other ≡ is_known self.old other }
    {
        let Some(at) = entry_at(&self.entries, place.as_bytes()) else {
            unreachable!();
        };
        self.entries[at].counts = counts;
    }
}

/// Where the first entry of a place stands.
fn entry_at(entries: &[Entry], place: &[u8]) -> Option<usize>
    ensures { result ≡ position (λ entry. bytes_eq entry.place.items place.now) entries.now }
{
    entries
        .iter()
        .position(|entry| entry.place.as_slice() == place)
}
