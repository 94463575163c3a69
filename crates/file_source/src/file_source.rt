//! A source over the bytes of a list file.

ghost use Rattle.std.specs.Prelude.{◌≡◌, ◌≤◌, ◌<◌, length, take, drop, map, vec_len, Some, None, Contains, MatchOption, IfOk, IfErr, IfSome, OnOk, OnErr};
ghost use Rattle.source_api.specs.Counting.{no_counts, NoneFell, TroubleHasCause, CountsAlone, MovedHasCause, GaveNothing, GaveRows, GaveGrade, gave_rows, gave_grade};
ghost use Rattle.source_api.specs.Told.{IsPage, IsGrade, first_grade};
ghost use Rattle.file_source.specs.ListFile.{list_records, rows_among, told_records};
ghost use Rattle.file_source.specs.FileAnswers.{AnswersPage, AnswersGrade, after_page, after_grade};

use super::Memory;
use super::grades::{grade_among, grades_of};
use super::list_file::{Reading, read_list};
use containers::ObjectMap;
use ranked_list::Row;
use source_api::{Counts, FailKind, Source, Trouble, part_of};
use std::alloc::Global;
use std::marker::Model;

/// A list file that was read whole.
///
/// Contracts see it as the record of its records, each as its row or None where it is no row, and of
/// what it has counted. It never fails, and it is never `Moved`: its version is 0. It garbles where a call
/// needs a record that is no row. It tells its list where each record is a row and no object comes twice.
#[derive(Drop)]
pub struct FileSource {
    records: Vec<Option<Row>>,
    /// The grades by object, once one was asked for.
    grades: Option<ObjectMap<u32>>,
    broken: bool,
    counts: Counts,
}

impl Model for FileSource {
    ghost use Rattle.file_source.specs.Filed.{Filed, IsIndexed};

    ghost Value = { Filed };

    ghost view = { λ f. record { records = f.records.items; counts = f.counts } };

    ghost invariant = { λ f. IsIndexed f.records.items f.grades f.broken };
}

impl FileSource {
    /// The source of a list file: values separated by commas, one record a line. A first record of
    /// the fields `object` and `grade` is a header. Any other record is a row where it has two fields,
    /// each of 1 to 10 digits with a value up to 4,294,967,295.
    ///
    /// *Cost*: one pass over the bytes; 12 bytes a record.
    pub fn open(alloc: Global, bytes: &[u8]) -> Result<FileSource, Memory>
        ensures { IfOk result (λ f. f ≡ record { records = list_records bytes.now; counts = no_counts }) }
    {
        let Reading {
            records,
            broken,
            ..
        } = read_list(alloc, bytes)?;
        Ok(FileSource {
            records,
            grades: None,
            broken,
            counts: Counts::none(),
        })
    }

    /// What it has counted.
    pub fn counts(&self) -> Counts
        ensures { result ≡ self.now.counts }
    {
        self.counts
    }

    /// Makes the index of grades by object, unless it is there or memory is refused.
    fn index(&mut self, alloc: Global)
        ensures { self.new ≡ self.old }
    {
        if self.grades.is_some() {
            return;
        }
        if let Ok(grades) = grades_of(alloc, &self.records) {
            self.grades = Some(grades);
        }
    }

    /// The grade of the first row with the object, by the index where it is there.
    fn find(&self, object: u32) -> Option<u32>
        ensures { result ≡ first_grade (rows_among self.now.records) object }
    {
        match &self.grades {
            Some(grades) => grades.get(object),
            None => grade_among(&self.records, object),
        }
    }
}

impl Source for FileSource {
    ghost use Rattle.std.specs.Prelude.{Some};
    ghost use Rattle.file_source.specs.FileLists.{told_list, told_has_each_once};

    ghost list = { told_list };

    ghost counts = { λ f. f.counts };

    ghost at_hand = { λ _. 0 };

    ghost states = { λ _. Some 0 };

    /// The number of records, rows or not. It never fails.
    fn size(&mut self, _: Global) -> Result<u64, Trouble>
        ensures answer { result ≡ Ok (length self.old.records) }
        ensures same { self.new ≡ self.old }
        ensures size { IfOk result (λ size. IfSome (told_records self.old.records) (λ rows. size ≡ length rows)) }
    {
        Ok(self.records.len() as u64)
    }

    /// The rows of all records that are asked for and are there.
    fn page(&mut self, alloc: Global, from: u32, count: u32) -> Result<Vec<Row>, Trouble>
        requires { 1 ≤ count }
        ensures answer { AnswersPage (take count (drop from self.old.records)) result }
        ensures after { self.new ≡ after_page result self.old }
        ensures later { NoneFell self.old.counts self.new.counts }
        ensures cause { IfErr result (TroubleHasCause self.old.counts self.new.counts) }
        ensures given { IfOk result (λ page. GaveRows (vec_len page) self.old.counts self.new.counts) }
        ensures gave_nothing { OnErr result (GaveNothing self.old.counts self.new.counts) }
        ensures quiet { IfOk result (λ page. self.new.counts ≡ gave_rows (vec_len page) self.old.counts) }
        ensures alone { IfErr result (CountsAlone self.old.counts self.new.counts) }
        ensures moved { IfErr result (MovedHasCause 0 (Some 0)) }
        ensures bound { IfOk result (λ page. vec_len page ≤ count) }
        ensures page { IfOk result (λ page. IfSome (told_records self.old.records) (λ rows. IsPage rows from page.items)) }
    {
        let Ok(found) = rows_of(alloc, part_of(&self.records, from, count)) else {
            return Err(Trouble::Fail(FailKind::Memory));
        };
        let Some(page) = found else {
            self.counts.count_trouble(Trouble::Fail(FailKind::Garbled));
            return Err(Trouble::Fail(FailKind::Garbled));
        };
        self.counts.count_rows(page.len() as u64);
        Ok(page)
    }

    /// The grade of the first row with the object. Where there is none the answer is garbled if some
    /// record is no row. The first call makes an index of the objects; where memory is refused for it the records are looked through.
    fn grade(&mut self, alloc: Global, object: u32) -> Result<Option<u32>, Trouble>
        ensures answer { AnswersGrade self.old.records object result }
        ensures after { self.new ≡ after_grade result self.old }
        ensures later { NoneFell self.old.counts self.new.counts }
        ensures cause { IfErr result (TroubleHasCause self.old.counts self.new.counts) }
        ensures given { OnOk result (GaveGrade self.old.counts self.new.counts) }
        ensures gave_nothing { OnErr result (GaveNothing self.old.counts self.new.counts) }
        ensures quiet { OnOk result (self.new.counts ≡ gave_grade self.old.counts) }
        ensures alone { IfErr result (CountsAlone self.old.counts self.new.counts) }
        ensures moved { IfErr result (MovedHasCause 0 (Some 0)) }
        ensures grade { IfOk result (λ grade. IfSome (told_records self.old.records) (λ rows. IsGrade rows object grade)) }
    {
        self.index(alloc);
        let grade = self.find(object);
        if grade.is_none() && self.broken {
            self.counts.count_trouble(Trouble::Fail(FailKind::Garbled));
            return Err(Trouble::Fail(FailKind::Garbled));
        }
        self.counts.count_grade();
        Ok(grade)
    }

    /// 0, as of each list file.
    fn version(&self) -> u64 {
        0
    }

    ghost distinct = { told_has_each_once };
}

/// The rows that these records are, or None where one of them is no row.
fn rows_of(alloc: Global, records: &[Option<Row>]) -> Result<Option<Vec<Row>>, Memory>
    ensures { IfOk result (λ found. MatchOption found (Contains records.now None) (λ rows. map Some rows.items ≡ records.now)) }
{
    let mut rows = Vec::with_capacity(alloc, records.len())?;
    for record in records {
        let Some(row) = record else {
            return Ok(None);
        };
        rows.push(*row)?;
    }
    Ok(Some(rows))
}

/// Takes what may go to another thread.
fn may_go<T: Send>(_: &T) {}

/// That a source over a list file may go to another thread.
fn source_may_go(source: &FileSource) {
    may_go(source);
}
