//! A ranked list that stands in memory.

ghost use Rattle.std.specs.Prelude.{◌≡◌, ◌==◌, ◌≤◌, ◌<◌, ℕ, List, None, nat_eq, length, take, drop, vec_len, Option, IfOk, IfErr, IfSome, OnOk, OnErr};
ghost use Rattle.std.specs.HashMap.{get};
ghost use Rattle.ranked_list.specs.declared.row.Row.{Row as RowOf};
ghost use Rattle.source_api.specs.Counting.{NoneFell, TroubleHasCause, CountsAlone, MovedHasCause, GaveNothing, GaveRows, GaveGrade, gave_rows, gave_grade};
ghost use Rattle.source_api.specs.Told.{IsPage, IsGrade, first_grade, or_else};
ghost use Rattle.test_mem_source.specs.InMemory.{new_source, unused, told_list, told_version, size_of, answered_grade, IsDue, trouble_in, after_size, after_page, after_grade, next_call, next_rows, next_version, rows_in, version_in};
ghost use Rattle.test_mem_source.specs.Editions.{editions_of, standing};

use super::edition::{Later, standing_at};
use ranked_list::Row;
use source_api::{Counts, FailKind, Memory, Source, Trouble, keep_first, part_of};
use std::alloc::Global;
use std::collections::HashMap;
use std::marker::Model;

/// Rows in memory, with calls that are to fail, or to be answered by garbled data.
///
/// The calls for pages and those for grades are counted apart, from 1. A call whose number stands in
/// a list of those that fail fails, and else one whose number stands in a list of those that garble
/// garbles. A call that neither fails nor garbles is `Moved` where the version at it isn't the one that
/// the last `size` stated. A call that ran out of memory isn't counted. Contracts see it as the record of its parts.
#[derive(Drop)]
pub struct MemSource {
    rows: Vec<Row>,
    grades: HashMap<u32, u32>,
    /// How many rows `size` states, where it isn't the number of rows.
    pub stated: Option<u64>,
    /// The version that replies state, until one of `later` comes.
    pub stated_version: u64,
    /// What it changes to, and at which calls.
    pub later: Vec<Later>,
    /// The numbers of the calls for pages that fail.
    pub fail_pages: Vec<u64>,
    /// The numbers of the calls for pages that garble.
    pub garble_pages: Vec<u64>,
    /// The numbers of the calls for grades that fail.
    pub fail_grades: Vec<u64>,
    /// The numbers of the calls for grades that garble.
    pub garble_grades: Vec<u64>,
    /// Objects with the grades that calls for grades give them, whatever the rows say.
    pub lies: Vec<Row>,
    page_calls: u64,
    grade_calls: u64,
    calls: u64,
    version: u64,
    counts: Counts,
}

impl Model for MemSource {
    ghost use Rattle.std.specs.Prelude.{◌≡◌, ℕ, nat_eq};
    ghost use Rattle.std.specs.HashMap.{get};
    ghost use Rattle.source_api.specs.Told.{first_grade};
    ghost use Rattle.test_mem_source.specs.Stored.{Stored};
    ghost use Rattle.test_mem_source.specs.Editions.{editions_of};

    ghost Value = { Stored };

    ghost view = { λ m. record {
      rows = m.rows.items;
      stated = m.stated;
      stated_version = m.stated_version;
      later = editions_of m.later.items;
      fail_pages = m.fail_pages.items;
      garble_pages = m.garble_pages.items;
      fail_grades = m.fail_grades.items;
      garble_grades = m.garble_grades.items;
      lies = m.lies.items;
      page_calls = m.page_calls;
      grade_calls = m.grade_calls;
      calls = m.calls;
      version = m.version;
      counts = m.counts;
    } };

    ghost invariant = { λ m. (object : ℕ) → get nat_eq m.grades object ≡ first_grade m.rows.items object };
}

impl MemSource {
    /// A source of these rows, of version 0. It states their number and changes never, no call is to fail or
    /// to garble, no grade is a lie, and it had no call yet.
    pub fn make(alloc: Global, rows: &[Row]) -> Result<MemSource, Memory>
        ensures { IfOk result (λ source. source ≡ new_source rows.now) }
    {
        let grades = grades_of(alloc, rows)?;
        let rows = Vec::from_slice(alloc, rows)?;
        Ok(MemSource {
            rows,
            grades,
            stated: None,
            stated_version: 0,
            later: Vec::new(alloc),
            fail_pages: Vec::new(alloc),
            garble_pages: Vec::new(alloc),
            fail_grades: Vec::new(alloc),
            garble_grades: Vec::new(alloc),
            lies: Vec::new(alloc),
            page_calls: 0,
            grade_calls: 0,
            calls: 0,
            version: 0,
            counts: Counts::none(),
        })
    }

    /// The same source, as it was before its first call.
    pub fn copy(&self, alloc: Global) -> Result<MemSource, Memory>
        ensures { IfOk result (λ copy. copy ≡ unused self.now) }
    {
        let mut copy = MemSource::make(alloc, &self.rows)?;
        match copy.answer_as(alloc, self) {
            Ok(()) => Ok(copy),
            Err(refused) => {
                drop(copy);
                Err(refused)
            }
        }
    }

    /// Takes over what another source states and changes to, which of its calls fail or garble, and its lies.
    fn answer_as(&mut self, alloc: Global, other: &MemSource) -> Result<(), Memory>
        ensures { OnOk result (self.new ≡ record self.old {
          stated = other.now.stated;
          stated_version = other.now.stated_version;
          later = other.now.later;
          fail_pages = other.now.fail_pages;
          garble_pages = other.now.garble_pages;
          fail_grades = other.now.fail_grades;
          garble_grades = other.now.garble_grades;
          lies = other.now.lies;
        }) }
    {
        self.stated = other.stated;
        self.stated_version = other.stated_version;
        self.later = copy_later(alloc, &other.later)?;
        put_calls(
            alloc,
            &mut self.fail_pages,
            &mut self.garble_pages,
            &other.fail_pages,
            &other.garble_pages,
        )?;
        put_calls(
            alloc,
            &mut self.fail_grades,
            &mut self.garble_grades,
            &other.fail_grades,
            &other.garble_grades,
        )?;
        self.lies = Vec::from_slice(alloc, &other.lies)?;
        Ok(())
    }

    /// The rows.
    pub fn rows(&self) -> &[Row]
        ensures { result.now ≡ self.now.rows }
    {
        self.rows.as_slice()
    }

    /// What it has counted.
    pub fn counts(&self) -> Counts
        ensures { result ≡ self.now.counts }
    {
        self.counts
    }
}

impl Source for MemSource {
    ghost use Rattle.test_mem_source.specs.InMemory.{told_list, told_version};
    ghost use Rattle.test_mem_source.specs.EachOnce.{told_has_each_once};

    ghost list = { told_list };

    ghost counts = { λ m. m.counts };

    ghost at_hand = { λ m. m.version };

    ghost states = { told_version };

    /// The stated number of rows, or else their number at this call. It never fails.
    fn size(&mut self, _: Global) -> Result<u64, Trouble>
        ensures answer { result ≡ Ok (size_of self.old) }
        ensures after { self.new ≡ after_size self.old }
        ensures size { IfOk result (λ size. IfSome (told_list self.old) (λ rows. size ≡ length rows)) }
        ensures version { IfSome (told_version self.old) (λ version. self.new.version ≡ version) }
    {
        self.calls = self.calls.saturating_add(1);
        self.version = version_at(self.stated_version, &self.later, self.calls);
        match self.stated {
            Some(stated) => Ok(stated),
            None => Ok(rows_at(&self.rows, &self.later, self.calls).len() as u64),
        }
    }

    /// All of the rows that are asked for and are there.
    fn page(&mut self, alloc: Global, from: u32, count: u32) -> Result<Vec<Row>, Trouble>
        requires { 1 ≤ count }
        ensures due { IsDue self.old.fail_pages self.old.garble_pages (next_call self.old.page_calls) self.old.version (next_version self.old) (trouble_in result) }
        ensures rows { IfOk result (λ page. page.items ≡ take count (drop from (next_rows self.old))) }
        ensures after { self.new ≡ after_page result self.old }
        ensures list { told_list self.new ≡ told_list self.old }
        ensures later { NoneFell self.old.counts self.new.counts }
        ensures cause { IfErr result (TroubleHasCause self.old.counts self.new.counts) }
        ensures given { IfOk result (λ page. GaveRows (vec_len page) self.old.counts self.new.counts) }
        ensures gave_nothing { OnErr result (GaveNothing self.old.counts self.new.counts) }
        ensures states { told_version self.new ≡ told_version self.old }
        ensures at_hand { self.new.version ≡ self.old.version }
        ensures alone { IfErr result (CountsAlone self.old.counts self.new.counts) }
        ensures version { OnOk result (IfSome (told_version self.old) (λ version. version ≡ self.old.version)) }
        ensures moved { IfErr result (MovedHasCause self.old.version (told_version self.old)) }
        ensures quiet { IfOk result (λ page. self.new.counts ≡ gave_rows (vec_len page) self.old.counts) }
        ensures bound { IfOk result (λ page. vec_len page ≤ count) }
        ensures page { IfOk result (λ page. IfSome (told_list self.old) (λ rows. IsPage rows from page.items)) }
    {
        let page_call = self.page_calls.saturating_add(1);
        let call = self.calls.saturating_add(1);
        let now = version_at(self.stated_version, &self.later, call);
        if let Some(trouble) = due(
            &self.fail_pages,
            &self.garble_pages,
            page_call,
            self.version,
            now,
        ) {
            self.page_calls = page_call;
            self.calls = call;
            self.counts.count_trouble(trouble);
            return Err(trouble);
        }
        let rows = rows_at(&self.rows, &self.later, call);
        let Ok(page) = Vec::from_slice(alloc, part_of(rows, from, count)) else {
            return Err(Trouble::Fail(FailKind::Memory));
        };
        self.page_calls = page_call;
        self.calls = call;
        self.counts.count_rows(page.len() as u64);
        Ok(page)
    }

    /// The grade of the first lie about the object, else that of its first row.
    fn grade(&mut self, _: Global, object: u32) -> Result<Option<u32>, Trouble>
        ensures due { IsDue self.old.fail_grades self.old.garble_grades (next_call self.old.grade_calls) self.old.version (next_version self.old) (trouble_in result) }
        ensures answer { IfOk result (λ grade. grade ≡ answered_grade self.old object) }
        ensures after { self.new ≡ after_grade result self.old }
        ensures list { told_list self.new ≡ told_list self.old }
        ensures later { NoneFell self.old.counts self.new.counts }
        ensures cause { IfErr result (TroubleHasCause self.old.counts self.new.counts) }
        ensures given { OnOk result (GaveGrade self.old.counts self.new.counts) }
        ensures gave_nothing { OnErr result (GaveNothing self.old.counts self.new.counts) }
        ensures states { told_version self.new ≡ told_version self.old }
        ensures at_hand { self.new.version ≡ self.old.version }
        ensures alone { IfErr result (CountsAlone self.old.counts self.new.counts) }
        ensures version { OnOk result (IfSome (told_version self.old) (λ version. version ≡ self.old.version)) }
        ensures moved { IfErr result (MovedHasCause self.old.version (told_version self.old)) }
        ensures quiet { OnOk result (self.new.counts ≡ gave_grade self.old.counts) }
        ensures grade { IfOk result (λ grade. IfSome (told_list self.old) (λ rows. IsGrade rows object grade)) }
        ensures no_memory { result ≡ Err (Trouble.Fail FailKind.Memory) → ⊥ }
    {
        self.grade_calls = self.grade_calls.saturating_add(1);
        self.calls = self.calls.saturating_add(1);
        let now = version_at(self.stated_version, &self.later, self.calls);
        if let Some(trouble) = due(
            &self.fail_grades,
            &self.garble_grades,
            self.grade_calls,
            self.version,
            now,
        ) {
            self.counts.count_trouble(trouble);
            return Err(trouble);
        }
        self.counts.count_grade();
        Ok(grade_of(&self.lies, &self.grades, &self.later, self.calls, object))
    }

    fn version(&self) -> u64 {
        self.version
    }

    ghost distinct = { told_has_each_once };
}

/// Puts the numbers of calls that fail and of those that garble in place of what was there.
fn put_calls(
    alloc: Global,
    fails: &mut Vec<u64>,
    garbles: &mut Vec<u64>,
    new_fails: &[u64],
    new_garbles: &[u64],
) -> Result<(), Memory>
    ensures { OnOk result ((fails.new.items ≡ new_fails.now) × (garbles.new.items ≡ new_garbles.now)) }
{
    *fails = Vec::from_slice(alloc, new_fails)?;
    *garbles = Vec::from_slice(alloc, new_garbles)?;
    Ok(())
}

/// The version at the call of this number.
fn version_at(first: u64, later: &[Later], call: u64) -> u64
    ensures { result ≡ version_in first (standing call None (editions_of later.now)) }
{
    match standing_at(later, call) {
        Some(held) => held.version,
        None => first,
    }
}

/// The rows at the call of this number.
fn rows_at<'a>(first: &'a [Row], later: &'a [Later], call: u64) -> &'a [Row]
    ensures { result.now ≡ rows_in first.now (standing call None (editions_of later.now)) }
{
    match standing_at(later, call) {
        Some(held) => held.rows.as_slice(),
        None => first,
    }
}

/// The same lists with their versions.
fn copy_later(alloc: Global, later: &[Later]) -> Result<Vec<Later>, Memory>
    ensures { IfOk result (λ copy. editions_of copy.items ≡ editions_of later.now) }
{
    let mut copy = Vec::new(alloc);
    for held in later {
        let rows = Vec::from_slice(alloc, &held.rows)?;
        copy.push(Later {
            call: held.call,
            version: held.version,
            rows,
        })?;
    }
    Ok(copy)
}

/// How a call is to end, where it isn't to be answered: by its number, by the version at hand and by the one now.
fn due(fails: &[u64], garbles: &[u64], call: u64, at_hand: u64, now: u64) -> Option<Trouble>
    ensures { IsDue fails.now garbles.now call at_hand now result }
{
    if fails.contains(&call) {
        return Some(Trouble::Fail(FailKind::Failed));
    }
    if garbles.contains(&call) {
        return Some(Trouble::Fail(FailKind::Garbled));
    }
    if now != at_hand {
        return Some(Trouble::Moved { had: at_hand, now });
    }
    None
}

/// The grade of the first lie about the object, else that of its first row at the call of this number.
fn grade_of(
    lies: &[Row],
    grades: &HashMap<u32, u32>,
    later: &[Later],
    call: u64,
    object: u32,
) -> Option<u32>
    ensures { (first : List RowOf) → ((object : ℕ) → get nat_eq grades.now object ≡ first_grade first object)
        → result ≡ or_else (first_grade lies.now object) (first_grade (rows_in first (standing call None (editions_of later.now))) object) }
{
    match grade_among(lies, object) {
        Some(grade) => Some(grade),
        None => match standing_at(later, call) {
            Some(held) => grade_among(&held.rows, object),
            None => grades.get(&object).copied(),
        },
    }
}

/// The grade of the first of these rows with the object.
fn grade_among(rows: &[Row], object: u32) -> Option<u32>
    ensures { result ≡ first_grade rows.now object }
{
    for row in rows {
        if row.object == object {
            return Some(row.grade);
        }
    }
    None
}

/// The grade of each object, by its first row.
fn grades_of(alloc: Global, rows: &[Row]) -> Result<HashMap<u32, u32>, Memory>
    ensures { IfOk result (λ grades. (object : ℕ) → get nat_eq grades object ≡ first_grade rows.now object) }
{
    let mut grades = HashMap::new(alloc);
    for row in rows {
        keep_first(&mut grades, *row)?;
    }
    Ok(grades)
}

/// Takes what may go to another thread.
fn may_go<T: Send>(_: &T) {}

/// That a source in memory may go to another thread.
fn source_may_go(source: &MemSource) {
    may_go(source);
}
