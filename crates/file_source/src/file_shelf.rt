//! A shelf of files.

ghost use Rattle.std.specs.Prelude.{◌≡◌, ◌≤◌, [], true, ℕ, List, vec_len, IfErr, IfOk, IfSome, OnErr, OnOk};
ghost use Rattle.source_api.specs.declared.source.FailKind.TheVariants.{Memory};
ghost use Rattle.source_api.specs.declared.source.Trouble.TheVariants.{Fail};
ghost use Rattle.source_api.specs.Counting.{no_counts};
ghost use Rattle.source_api.specs.Places.{counts_at, is_known, IsTaking, SameElsewhere, CountsTexts, CountsTakes, HasTextCause, HasTakeCause, text_limit};
ghost use Rattle.file_source.specs.ListFile.{list_records};
ghost use Rattle.file_source.specs.Shelved.{ReadsList, IsFileTrouble};

use super::ListSource;
use super::file_tree::FileTree;
use source_api::{FailKind, Ledger, Shelf, Trouble};
use std::alloc::Global;
use std::marker::Model;
use tk_io::{Intake, ReadError, read_text};
use topk_base::MAX_LIST_TEXT;

/// The files of a tree, as those of the file system, each read whole at each call. A file that is
/// missing, a folder, or a file of more than 16,777,216 bytes is a call that failed. A text is all bytes
/// of its file, and a source is the one over all of them, of version 0. Contracts see it as the files and
/// what it has counted, place by place.
#[derive(Drop)]
pub struct FileShelf<'a, F: FileTree> {
    files: &'a F,
    ledger: Ledger,
}

impl<'a, F: FileTree> Model for FileShelf<'a, F> {
    ghost use Rattle.source_api.specs.contracts.ledger.Ledger as kept;
    ghost use Rattle.file_source.specs.Shelved.{FilesShelved, shelved_code};

    ghost Value = { FilesShelved F };

    ghost coded = { shelved_code F.code kept.the_row.coded };

    ghost view = { λ s. record { files = s.files.now; ledger = s.ledger } };
}

impl<'a, F: FileTree> FileShelf<'a, F> {
    /// The shelf of these files. It has counted nothing yet. Takes no memory.
    pub fn make(alloc: Global, files: &'a F) -> FileShelf<'a, F>
        ensures { result ≡ record { files = files.now; ledger = [] } }
    {
        FileShelf {
            files,
            ledger: Ledger::make(alloc),
        }
    }
}

impl<'a, F: FileTree> Shelf for FileShelf<'a, F> {
    ghost use Rattle.std.specs.Prelude.{Some};
    ghost use Rattle.source_api.specs.Places.{counts_at, is_known};
    ghost use Rattle.file_source.specs.Shelved.{rows_at};

    type Item = ListSource;

    ghost texts = { λ s. F.contents s.files };

    ghost lists = { λ s. rows_at (F.contents s.files) };

    ghost versions = { λ _ _. Some 0 };

    ghost at = { λ s. counts_at s.ledger };

    ghost knows = { λ s. is_known s.ledger };

    fn text(&mut self, alloc: Global, place: &str) -> Result<Vec<u8>, Trouble> {
        match read_file(alloc, self.files, place) {
            Ok(text) => Ok(text),
            Err(trouble) => Err(count_text(&mut self.ledger, alloc, place, trouble)),
        }
    }

    fn take(&mut self, alloc: Global, place: &str) -> Result<ListSource, Trouble> {
        match source_at(alloc, self.files, place) {
            Ok(source) => give(&mut self.ledger, alloc, place, source),
            Err(trouble) => Err(count_take(&mut self.ledger, alloc, place, trouble)),
        }
    }

    fn put_back(&mut self, place: &str, item: ListSource) {
        self.ledger.add_source(place, item.counts());
    }
}

/// Counts a source that is taken, and gives it. Where memory is refused it is dropped.
fn give(
    ledger: &mut Ledger,
    alloc: Global,
    place: &str,
    source: ListSource,
) -> Result<ListSource, Trouble>
    ensures taken { OnOk result (IsTaking ledger.old ledger.new place.now) }
    ensures source { IfOk result (λ given. given ≡ source) }
    ensures untaken { OnErr result (ledger.new ≡ ledger.old) }
    ensures refused { OnErr result (result ≡ Err (Fail Memory)) }
{
    match ledger.count_taken(alloc, place) {
        Ok(()) => Ok(source),
        Err(_) => {
            drop(source);
            Err(Trouble::Fail(FailKind::Memory))
        }
    }
}

/// Counts a call for a text that ended so, and says how it ends. Lack of memory isn't counted.
pub fn count_text(ledger: &mut Ledger, alloc: Global, place: &str, trouble: Trouble) -> Trouble
    ensures known { (other : List ℕ) → is_known ledger.old other ≡ true → is_known ledger.new other ≡ true }
    ensures elsewhere { SameElsewhere place.now (counts_at ledger.old) (counts_at ledger.new) }
    ensures counts { CountsTexts (counts_at ledger.old place.now) (counts_at ledger.new place.now) }
    ensures cause { HasTextCause (counts_at ledger.old place.now) (counts_at ledger.new place.now) result }
{
    if let Trouble::Fail(FailKind::Memory) = trouble {
        return Trouble::Fail(FailKind::Memory);
    }
    match ledger.count_text_fault(alloc, place) {
        Ok(()) => Trouble::Fail(FailKind::Failed),
        Err(_) => Trouble::Fail(FailKind::Memory),
    }
}

/// Counts a call for a source that ended so, and says how it ends. Lack of memory isn't counted.
pub fn count_take(ledger: &mut Ledger, alloc: Global, place: &str, trouble: Trouble) -> Trouble
    ensures known { (other : List ℕ) → is_known ledger.old other ≡ true → is_known ledger.new other ≡ true }
    ensures elsewhere { SameElsewhere place.now (counts_at ledger.old) (counts_at ledger.new) }
    ensures counts { CountsTakes (counts_at ledger.old place.now) (counts_at ledger.new place.now) }
    ensures untaken { (counts_at ledger.new place.now).taken ≡ (counts_at ledger.old place.now).taken }
    ensures cause { HasTakeCause (counts_at ledger.old place.now) (counts_at ledger.new place.now) result }
{
    if let Trouble::Fail(FailKind::Memory) = trouble {
        return Trouble::Fail(FailKind::Memory);
    }
    match ledger.count_take_fault(alloc, place) {
        Ok(()) => Trouble::Fail(FailKind::Failed),
        Err(_) => Trouble::Fail(FailKind::Memory),
    }
}

/// Reads a file whole. A file that isn't there or can't be read, or one of more than 16,777,216
/// bytes, is `Failed`. No other trouble comes but `Memory`.
pub fn read_file<F: FileTree>(alloc: Global, files: &F, place: &str) -> Result<Vec<u8>, Trouble>
    ensures within { IfOk result (λ text. vec_len text ≤ text_limit) }
    ensures told { IfOk result (λ text. IfSome (F.contents files.now place.now) (λ told. text.items ≡ told)) }
    ensures sound { IfErr result IsFileTrouble }
{
    let Some(mut file) = files.open_place(place) else {
        return Err(Trouble::Fail(FailKind::Failed));
    };
    let read = read_list(alloc, &mut file);
    drop(file);
    read
}

/// Reads a list's text to its end. A text that can't be read, or one of more than 16,777,216 bytes,
/// is `Failed`.
fn read_list<I: Intake>(alloc: Global, input: &mut I) -> Result<Vec<u8>, Trouble>
    ensures { ReadsList (I.left input.old) (I.left input.new) (I.faults input.old) (I.faults input.new) result }
{
    match read_text(alloc, input, MAX_LIST_TEXT) {
        Ok(text) => Ok(text),
        Err(ReadError::Memory) => Err(Trouble::Fail(FailKind::Memory)),
        Err(_) => Err(Trouble::Fail(FailKind::Failed)),
    }
}

/// The source over all bytes of a file.
fn source_at<F: FileTree>(alloc: Global, files: &F, place: &str) -> Result<ListSource, Trouble>
    ensures fresh { IfOk result (λ source. source.counts ≡ no_counts) }
    ensures told { IfOk result (λ source. IfSome (F.contents files.now place.now) (λ told. source.records ≡ list_records told)) }
    ensures sound { IfErr result IsFileTrouble }
{
    match read_file(alloc, files, place) {
        Ok(text) => Ok(ListSource::of_text(text)),
        Err(trouble) => Err(trouble),
    }
}
