//! A source over a list file whose records are read at its first call.

ghost use Rattle.std.specs.Prelude.{◌≡◌};
ghost use Rattle.source_api.specs.Counting.{no_counts};
ghost use Rattle.file_source.specs.ListFile.{list_records};

use super::{FileSource, Memory};
use ranked_list::Row;
use source_api::{Counts, FailKind, Source, Trouble};
use std::alloc::Global;
use std::marker::Model;

/// A list file, whose records are read at its first call.
///
/// Contracts see it as its records and what it has counted, as a `FileSource`, whether they were read by then or not. It answers as
/// that one does, but that the first call may run out of memory. So the cost of reading is that of a call on it, which may go on beside others.
#[derive(Drop)]
pub struct ListSource {
    form: Form,
}

/// What is kept of a list file.
#[derive(Drop)]
enum Form {
    /// Its bytes, before the first call.
    Text(Vec<u8>),
    /// Its records.
    Records(FileSource),
}

impl Model for ListSource {
    ghost use Rattle.file_source.specs.Filed.{Filed};
    ghost use Rattle.file_source.specs.Unread.{filed};

    ghost Value = { Filed };

    ghost view = { λ s. filed s.form };
}

impl ListSource {
    /// The source over all bytes of a list file. They aren't read yet.
    pub fn of_text(text: Vec<u8>) -> ListSource
        ensures { result ≡ record { records = list_records text.items; counts = no_counts } }
    {
        ListSource {
            form: Form::Text(text),
        }
    }

    /// What it has counted.
    pub fn counts(&self) -> Counts
        ensures { result ≡ self.now.counts }
    {
        match &self.form {
            Form::Text(_) => Counts::none(),
            Form::Records(source) => source.counts(),
        }
    }

    /// Reads the records where they haven't been read.
    fn read(&mut self, alloc: Global) -> Result<(), Memory>
        ensures same { self.new ≡ self.old }
    {
        let source = match &self.form {
            Form::Text(text) => FileSource::open(alloc, text)?,
            Form::Records(_) => return Ok(()),
        };
        self.form = Form::Records(source);
        Ok(())
    }
}

impl Source for ListSource {
    ghost use Rattle.std.specs.Prelude.{Some};
    ghost use Rattle.file_source.specs.FileLists.{told_list, told_has_each_once};

    ghost list = { told_list };

    ghost counts = { λ f. f.counts };

    ghost at_hand = { λ _. 0 };

    ghost states = { λ _. Some 0 };

    fn size(&mut self, alloc: Global) -> Result<u64, Trouble> {
        let Ok(()) = self.read(alloc) else {
            return Err(Trouble::Fail(FailKind::Memory));
        };
        match &mut self.form {
            Form::Text(_) => Err(Trouble::Fail(FailKind::Memory)),
            Form::Records(source) => source.size(alloc),
        }
    }

    fn page(&mut self, alloc: Global, from: u32, count: u32) -> Result<Vec<Row>, Trouble> {
        let Ok(()) = self.read(alloc) else {
            return Err(Trouble::Fail(FailKind::Memory));
        };
        match &mut self.form {
            Form::Text(_) => Err(Trouble::Fail(FailKind::Memory)),
            Form::Records(source) => source.page(alloc, from, count),
        }
    }

    fn grade(&mut self, alloc: Global, object: u32) -> Result<Option<u32>, Trouble> {
        let Ok(()) = self.read(alloc) else {
            return Err(Trouble::Fail(FailKind::Memory));
        };
        match &mut self.form {
            Form::Text(_) => Err(Trouble::Fail(FailKind::Memory)),
            Form::Records(source) => source.grade(alloc, object),
        }
    }

    /// 0, as of each list file.
    fn version(&self) -> u64 {
        0
    }

    ghost distinct = { told_has_each_once };
}

/// Takes what may go to another thread.
fn may_go<T: Send>(_: &T) {}

/// That a source over a list file may go to another thread.
fn source_may_go(source: &ListSource) {
    may_go(source);
}
