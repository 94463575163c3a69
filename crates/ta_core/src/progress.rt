//! How far a machine has come in the row that it reads.

ghost use Rattle.std.specs.Prelude.{◌≡◌, ◌<◌, ◌≤◌, length};
ghost use Rattle.ta_core.specs.Reading.{filled, row_added, grade_added, settled, row_begun, need_at, is_scored, is_whole};
ghost use Rattle.ta_core.specs.Shown.{reading_of, filled_for};

use arrayvec::ArrayVec;
use ranked_list::{Need, Row};
use topk_base::MAX_LISTS;

/// At most one number for each list.
pub(crate) type Few = ArrayVec<u32, MAX_LISTS>;

/// The row at a depth as far as it is read: its objects and grades, those of its new objects that
/// wait for grades, in the order of the lists, and the grades of the first of these so far.
#[derive(Drop)]
pub(crate) struct Progress {
    pub(crate) depth: u32,
    pub(crate) objects: Few,
    pub(crate) bottoms: Few,
    pub(crate) waiting: Few,
    pub(crate) grades: Few,
    /// Whether the run is made.
    pub(crate) done: bool,
}

impl Progress {
    /// The beginning of the row at a depth.
    pub(crate) fn at(depth: u32) -> Progress
        ensures { reading_of result ≡ row_begun depth }
    {
        Progress {
            depth,
            objects: Few::new(),
            bottoms: Few::new(),
            waiting: Few::new(),
            grades: Few::new(),
            done: false,
        }
    }

    /// Adds the next list's row. A new object waits for its grades, and a whole row tells the first
    /// of these the grades that it has of it.
    pub(crate) fn add_row(&mut self, lists: u8, row: Row, is_new: bool)
        requires unread { length self.old.objects.items < lists }
        requires few { lists ≤ MAX_LISTS }
        requires same { length self.old.bottoms.items ≡ length self.old.objects.items }
        requires waits { length self.old.waiting.items ≤ length self.old.objects.items }
        requires none { length self.old.grades.items ≡ 0 }
        ensures { reading_of self.new ≡ row_added lists (reading_of self.old) row is_new }
    {
        self.objects.push(row.object);
        self.bottoms.push(row.grade);
        if is_new {
            self.waiting.push(row.object);
        }
        if self.objects.len() == lists as usize {
            self.fill();
        }
    }

    /// Adds the grade in the next list of the first object that waits, and those that follow it in
    /// the row.
    pub(crate) fn add_grade(&mut self, grade: u32)
        requires waits { 0 < length self.old.waiting.items }
        requires missing { length self.old.grades.items < length self.old.objects.items }
        requires few { length self.old.objects.items ≤ MAX_LISTS }
        requires same { length self.old.bottoms.items ≡ length self.old.objects.items }
        ensures { reading_of self.new ≡ grade_added (reading_of self.old) grade }
    {
        self.grades.push(grade);
        self.fill();
    }

    /// Adds the grades that the row itself has of the first object that waits, up to the first list
    /// in which the row has another one.
    fn fill(&mut self)
        requires same { length self.old.bottoms.items ≡ length self.old.objects.items }
        ensures { reading_of self.new ≡ record (reading_of self.old) {
          grades =
              filled_for self.old.objects.items self.old.bottoms.items self.old.waiting.items
              self.old.grades.items;
        } }
    {
        if let Some(object) = self.waiting.first() {
            fill_grades(
                self.objects.as_slice(),
                self.bottoms.as_slice(),
                *object,
                &mut self.grades,
            );
        }
    }

    /// Whether the first object that waits has all its grades.
    pub(crate) fn is_scored(&self, lists: u8) -> bool
        ensures { result ≡ is_scored lists (reading_of self.now) }
    {
        self.grades.len() == lists as usize
    }

    /// An object that has all its grades waits no more.
    pub(crate) fn settle(&mut self, lists: u8)
        requires { length self.old.grades.items ≡ lists → 0 < length self.old.waiting.items }
        ensures { reading_of self.new ≡ settled lists (reading_of self.old) }
    {
        if self.is_scored(lists) {
            self.waiting.remove(0);
            self.grades.clear();
        }
    }

    /// Whether the row is read and no object waits.
    pub(crate) fn is_whole(&self, lists: u8) -> bool
        ensures { result ≡ is_whole lists (reading_of self.now) }
    {
        self.objects.len() == lists as usize && self.waiting.is_empty()
    }

    /// What is needed next.
    pub(crate) fn need(&self, lists: u8) -> Need
        ensures { result ≡ need_at lists (reading_of self.now) }
    {
        if self.done {
            return Need::Done;
        }
        if self.objects.len() < lists as usize {
            return Need::Row {
                list: self.objects.len() as u8,
                depth: self.depth,
            };
        }
        Need::Grade {
            list: self.grades.len() as u8,
            object: self.waiting.first().copied().unwrap_or(0),
        }
    }
}

fn fill_grades(objects: &[u32], bottoms: &[u32], object: u32, grades: &mut Few)
    requires same { length bottoms.now ≡ length objects.now }
    requires few { length objects.now ≤ MAX_LISTS }
    ensures { grades.new.items ≡ filled objects.now bottoms.now object grades.old.items }
{
    while grades.len() < objects.len() && objects[grades.len()] == object {
        let bottom = bottoms[grades.len()];
        grades.push(bottom);
    }
}
