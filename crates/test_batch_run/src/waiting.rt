//! A source of which one call waits until calls of another source were made, or each call of one that is far.

ghost use Rattle.std.specs.Prelude.{◌≡◌, ◌≤◌, vec_len, IfOk, IfErr, IfSome, OnErr, OnOk};
ghost use Rattle.source_api.specs.Counting.{NoneFell, TroubleHasCause, CountsAlone, MovedHasCause, GaveNothing, GaveRows, GaveGrade, gave_rows, gave_grade};
ghost use Rattle.test_mem_source.specs.InMemory.{told_list, told_version};
ghost use Rattle.source_api.specs.Told.{IsPage, IsGrade};

use ranked_list::Row;
use source_api::{Counts, FailKind, Source, Trouble};
use std::alloc::Global;
use std::sync::atomic::{AtomicU64, Ordering};
use test_mem_source::MemSource;

/// How many calls for pages, and for grades, were made of each source.
#[derive(Clone, Copy)]
pub struct Made<'a> {
    pub pages: &'a [AtomicU64],
    pub grades: &'a [AtomicU64],
}

/// A call of a source, by its number from 1 among those of its kind.
#[derive(Clone, Copy, PartialEq, Eq)]
pub enum Call {
    Page(u64),
    Grade(u64),
}

/// How often a call looks whether those that it waits for were made before it gives up.
pub const PATIENCE: u64 = 1_000_000_000;

/// Of a source that is far, the sources beside which its calls are made: each waits until as many of its kind were made there, its own with them, and
/// fails if it waits in vain. So one that is beside itself waits for nothing.
#[derive(Clone, Copy)]
pub struct Far {
    /// The number of the source beside which its pages are called for.
    pub pages: usize,
    /// That of its grades, and how many of the calls for these wait; later ones wait for nothing.
    pub grades: (usize, u64),
}

/// The call that waits, and what it waits for: until so many calls for pages of another source were made.
#[derive(Clone, Copy)]
pub struct Gate {
    pub call: Call,
    /// The other source's number.
    pub source: usize,
    pub until: u64,
    /// How often it looks whether they were made before it gives up.
    pub patience: u64,
    /// How the call ends by then. No reply has come, so it isn't moved: that is a failed call.
    pub trouble: Trouble,
}

/// Rows in memory, of which calls may wait.
#[derive(Drop)]
pub struct Gated<'a> {
    rows: MemSource,
    made: Made<'a>,
    /// The number of this source.
    number: usize,
    gate: Option<Gate>,
    far: Option<Far>,
    counts: Counts,
}

/// Counts a call of a source among those of its kind, and tells its number.
fn count_call(calls: &[AtomicU64], source: usize) -> u64 {
    match calls.get(source) {
        Some(made) => made.fetch_add(1, Ordering::SeqCst).saturating_add(1),
        None => 0,
    }
}

/// Whether so many calls of a source are made in time.
fn come(calls: &[AtomicU64], source: usize, until: u64, patience: u64) -> bool {
    let Some(made) = calls.get(source) else {
        return false;
    };
    for _ in 0..patience {
        if made.load(Ordering::SeqCst) >= until {
            return true;
        }
    }
    false
}

/// Whether a call of a source that is far goes on beside one of another source.
fn is_beside(far: Far, made: Made<'_>, call: Call) -> bool {
    match call {
        Call::Page(number) => come(made.pages, far.pages, number, PATIENCE),
        Call::Grade(number) => {
            number > far.grades.1 || come(made.grades, far.grades.0, number, PATIENCE)
        }
    }
}

/// How the call that waits ends where it waits in vain.
fn trouble_at(gate: Option<Gate>, made: Made<'_>, call: Call) -> Option<Trouble> {
    match gate {
        Some(gate)
            if gate.call == call && !come(made.pages, gate.source, gate.until, gate.patience) => {
            Some(gate.trouble)
        }
        _ => None,
    }
}

/// How a call of a source that may be far ends where it waits in vain.
fn trouble_beside(far: Option<Far>, made: Made<'_>, call: Call) -> Option<Trouble> {
    match far {
        Some(far) if !is_beside(far, made, call) => Some(Trouble::Fail(FailKind::Failed)),
        _ => None,
    }
}

/// A page of the rows, unless the call has ended already.
fn page_of(
    rows: &mut MemSource,
    alloc: Global,
    from: u32,
    count: u32,
    trouble: Option<Trouble>,
) -> Result<Vec<Row>, Trouble>
    requires { 1 ≤ count }
    ensures list { told_list rows.new ≡ told_list rows.old }
    ensures states { told_version rows.new ≡ told_version rows.old }
    ensures at_hand { rows.new.version ≡ rows.old.version }
    ensures version { OnOk result (IfSome (told_version rows.old) (λ version. version ≡ rows.old.version)) }
    ensures moved { IfErr result (MovedHasCause rows.old.version (told_version rows.old)) }
    ensures bound { IfOk result (λ page. vec_len page ≤ count) }
    ensures page { IfOk result (λ page. IfSome (told_list rows.old) (λ told. IsPage told from page.items)) }
{
    match trouble {
        None => rows.page(alloc, from, count),
        Some(Trouble::Fail(FailKind::Garbled)) => Err(Trouble::Fail(FailKind::Garbled)),
        Some(Trouble::Fail(FailKind::Memory)) => Err(Trouble::Fail(FailKind::Memory)),
        Some(_) => Err(Trouble::Fail(FailKind::Failed)),
    }
}

/// The grade of an object, unless the call has ended already.
fn grade_of(
    rows: &mut MemSource,
    alloc: Global,
    object: u32,
    trouble: Option<Trouble>,
) -> Result<Option<u32>, Trouble>
    ensures list { told_list rows.new ≡ told_list rows.old }
    ensures states { told_version rows.new ≡ told_version rows.old }
    ensures at_hand { rows.new.version ≡ rows.old.version }
    ensures version { OnOk result (IfSome (told_version rows.old) (λ version. version ≡ rows.old.version)) }
    ensures moved { IfErr result (MovedHasCause rows.old.version (told_version rows.old)) }
    ensures grade { IfOk result (λ grade. IfSome (told_list rows.old) (λ told. IsGrade told object grade)) }
{
    match trouble {
        None => rows.grade(alloc, object),
        Some(Trouble::Fail(FailKind::Garbled)) => Err(Trouble::Fail(FailKind::Garbled)),
        Some(Trouble::Fail(FailKind::Memory)) => Err(Trouble::Fail(FailKind::Memory)),
        Some(_) => Err(Trouble::Fail(FailKind::Failed)),
    }
}

/// The counts with a call for a page that ended so.
fn with_page(counts: Counts, page: &Result<Vec<Row>, Trouble>) -> Counts
    ensures later { NoneFell counts result }
    ensures cause { IfErr page.now (TroubleHasCause counts result) }
    ensures given { IfOk page.now (λ page. GaveRows (vec_len page) counts result) }
    ensures gave_nothing { OnErr page.now (GaveNothing counts result) }
    ensures quiet { IfOk page.now (λ page. result ≡ gave_rows (vec_len page) counts) }
    ensures alone { IfErr page.now (CountsAlone counts result) }
{
    let mut counted = counts;
    match page {
        Ok(rows) => counted.count_rows(rows.len() as u64),
        Err(trouble) => counted.count_trouble(*trouble),
    }
    counted
}

/// The counts with a call for a grade that ended so.
fn with_grade(counts: Counts, grade: Result<Option<u32>, Trouble>) -> Counts
    ensures later { NoneFell counts result }
    ensures cause { IfErr grade (TroubleHasCause counts result) }
    ensures given { OnOk grade (GaveGrade counts result) }
    ensures gave_nothing { OnErr grade (GaveNothing counts result) }
    ensures quiet { OnOk grade (result ≡ gave_grade counts) }
    ensures alone { IfErr grade (CountsAlone counts result) }
{
    let mut counted = counts;
    match grade {
        Ok(_) => counted.count_grade(),
        Err(trouble) => counted.count_trouble(trouble),
    }
    counted
}

impl<'a> Gated<'a> {
    /// The source with a number, of these rows.
    pub fn make(
        rows: MemSource,
        made: Made<'a>,
        number: usize,
        gate: Option<Gate>,
        far: Option<Far>,
    ) -> Gated<'a> {
        Gated {
            rows,
            made,
            number,
            gate,
            far,
            counts: Counts::none(),
        }
    }

    /// How a call ends that waits in vain.
    fn trouble(&self, call: Call) -> Option<Trouble> {
        match trouble_at(self.gate, self.made, call) {
            Some(trouble) => Some(trouble),
            None => trouble_beside(self.far, self.made, call),
        }
    }

    /// What it has counted.
    pub fn counts(&self) -> Counts {
        self.counts
    }
}

impl<'a> Source for Gated<'a> {
    ghost use Rattle.test_mem_source.specs.InMemory.{told_list, told_version};
    ghost use Rattle.test_mem_source.specs.EachOnce.{told_has_each_once};

    ghost list = { λ s. told_list s.rows };

    ghost counts = { λ s. s.counts };

    ghost at_hand = { λ s. s.rows.version };

    ghost states = { λ s. told_version s.rows };

    fn size(&mut self, alloc: Global) -> Result<u64, Trouble> {
        self.rows.size(alloc)
    }

    fn page(&mut self, alloc: Global, from: u32, count: u32) -> Result<Vec<Row>, Trouble> {
        let call = Call::Page(count_call(self.made.pages, self.number));
        let trouble = self.trouble(call);
        let page = page_of(&mut self.rows, alloc, from, count, trouble);
        self.counts = with_page(self.counts, &page);
        page
    }

    fn grade(&mut self, alloc: Global, object: u32) -> Result<Option<u32>, Trouble> {
        let call = Call::Grade(count_call(self.made.grades, self.number));
        let trouble = self.trouble(call);
        let grade = grade_of(&mut self.rows, alloc, object, trouble);
        self.counts = with_grade(self.counts, grade);
        grade
    }

    fn version(&self) -> u64 {
        self.rows.version()
    }

    fn is_far(&self) -> bool {
        self.far.is_some()
    }

    ghost distinct = { λ s. told_has_each_once s.rows };
}
