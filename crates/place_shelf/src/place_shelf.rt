//! A shelf of files and of lists that hosts serve.

ghost use Rattle.std.specs.Prelude.{◌≡◌, [], None, Some, true, ℕ, List, IfErr, IfOk, IfSome, OnErr, OnOk};
ghost use Rattle.std.specs.declared.result.Result.TheVariants.{Err};
ghost use Rattle.source_api.specs.declared.source.FailKind.TheVariants.{Memory};
ghost use Rattle.source_api.specs.declared.source.Trouble.TheVariants.{Fail};
ghost use Rattle.source_api.specs.Calls.{IsUncalled};
ghost use Rattle.source_api.specs.Counting.{no_counts};
ghost use Rattle.source_api.specs.Places.{IsTaking, SameAtEach, SameElsewhere, CountsTakes, HasTakeCause, counts_at, counts_taken, is_known};
ghost use Rattle.place_shelf.specs.Shelved.{list_at, version_at};
ghost use Rattle.place_shelf.specs.Sources.{IsSourceOf, list_of, counts_of, version_of, states_of};

use super::dial_maker::DialMaker;
use super::opening::open_told;
use super::place_source::PlaceSource;
use file_source::{FileTree, count_take, count_text, read_file};
use source_api::{FailKind, Ledger, Shelf, Trouble};
use std::alloc::Global;
use std::marker::Model;
use tk_io::Dial;

/// The files of a tree, as those of the file system, and the lists that hosts serve.
///
/// A text is all bytes of the file whose path the place is, also where the place is an address: hosts
/// serve lists alone. The source of a place is the one that `open_place` opens: over all bytes of its
/// file, read at each call, or over a dial of its own to its address. A file that is missing, a folder,
/// a file of more than 16,777,216 bytes, and a source of a place that is neither a path nor an address
/// are calls that failed. Contracts see it as the files, what makes dials, and what it has counted, place
/// by place.
#[derive(Drop)]
pub struct PlaceShelf<'a, F: FileTree, M: DialMaker> {
    files: &'a F,
    dials: &'a M,
    ledger: Ledger,
}

impl<'a, F: FileTree, M: DialMaker> Model for PlaceShelf<'a, F, M> {
    ghost use Rattle.source_api.specs.contracts.ledger.Ledger as kept;
    ghost use Rattle.place_shelf.specs.Shelved.{PlacesShelved, places_code};

    ghost Value = { PlacesShelved F M };

    ghost coded = { places_code F.code M.code kept.the_row.coded };

    ghost view = { λ s. record { files = s.files.now; dials = s.dials.now; ledger = s.ledger } };
}

impl<'a, F: FileTree, M: DialMaker> PlaceShelf<'a, F, M> {
    /// The shelf of these files, and of what is reached by these dials. It has counted nothing yet. Takes
    /// no memory.
    pub fn make(alloc: Global, files: &'a F, dials: &'a M) -> PlaceShelf<'a, F, M>
        ensures { result ≡ record { files = files.now; dials = dials.now; ledger = [] } }
    {
        PlaceShelf {
            files,
            dials,
            ledger: Ledger::make(alloc),
        }
    }
}

impl<'a, F: FileTree, M: DialMaker> Shelf for PlaceShelf<'a, F, M>
where
    M::D: Send,
{
    type Item = PlaceSource<M::D>;

    ghost texts = { λ s. F.contents s.files };

    ghost lists = { λ s. list_at (F.contents s.files) };

    ghost versions = { λ _. version_at };

    ghost at = { λ s. counts_at s.ledger };

    ghost knows = { λ s. is_known s.ledger };

    fn text(&mut self, alloc: Global, place: &str) -> Result<Vec<u8>, Trouble> {
        match read_file(alloc, self.files, place) {
            Ok(text) => Ok(text),
            Err(trouble) => Err(count_text(&mut self.ledger, alloc, place, trouble)),
        }
    }

    /// The source that `open_place` opens of the place.
    fn take(&mut self, alloc: Global, place: &str) -> Result<PlaceSource<M::D>, Trouble>
        ensures source { IfOk result (IsSourceOf (F.contents self.old.files) (M.makes self.old.dials) M.D.faults place.now) }
        ensures texts { SameAtEach (F.contents self.old.files) (F.contents self.new.files) }
        ensures lists { SameAtEach (list_at (F.contents self.old.files)) (list_at (F.contents self.new.files)) }
        ensures known { (other : List ℕ) → is_known self.old.ledger other ≡ true → is_known self.new.ledger other ≡ true }
        ensures elsewhere { SameElsewhere place.now (counts_at self.old.ledger) (counts_at self.new.ledger) }
        ensures counts { CountsTakes (counts_at self.old.ledger place.now) (counts_at self.new.ledger place.now) }
        ensures taken { OnOk result (counts_at self.new.ledger place.now ≡ counts_taken (counts_at self.old.ledger place.now)) }
        ensures untaken { OnErr result ((counts_at self.new.ledger place.now).taken ≡ (counts_at self.old.ledger place.now).taken) }
        ensures cause { IfErr result (HasTakeCause (counts_at self.old.ledger place.now) (counts_at self.new.ledger place.now)) }
        ensures fresh { IfOk result (λ item. counts_of M.D.faults item ≡ no_counts) }
        ensures unasked { IfOk result (λ item. version_of item ≡ 0) }
        ensures uncalled { IfOk result (λ _. IsUncalled None) }
        ensures version { IfOk result (λ item. IfSome (version_at place.now) (λ told. states_of item ≡ Some told)) }
        ensures list { IfOk result (λ item. IfSome (list_at (F.contents self.old.files) place.now) (λ told. list_of item ≡ Some told)) }
        ensures knows { OnOk result (is_known self.new.ledger place.now ≡ true) }
    {
        match open_told(alloc, self.files, self.dials, place) {
            Ok(source) => give(&mut self.ledger, alloc, place, source),
            Err(trouble) => Err(count_take(&mut self.ledger, alloc, place, trouble)),
        }
    }

    fn put_back(&mut self, place: &str, item: PlaceSource<M::D>) {
        self.ledger.add_source(place, item.counts());
    }
}

/// Counts a source that is taken, and gives it. Where memory is refused it is dropped.
fn give<D: Dial + Drop>(
    ledger: &mut Ledger,
    alloc: Global,
    place: &str,
    source: PlaceSource<D>,
) -> Result<PlaceSource<D>, Trouble>
    ensures taken { OnOk result (IsTaking ledger.old ledger.new place.now) }
    ensures source { IfOk result (λ given. given ≡ source) }
    ensures untaken { OnErr result (ledger.new ≡ ledger.old) }
    ensures refused { OnErr result (result ≡ Err (Fail Memory)) }
{
    match ledger.count_taken(alloc, place) {
        Ok(()) => Ok(source),
        Err(_) => {
            drop(source);
            Err(Trouble::Fail(FailKind::Memory))
        }
    }
}
