//! Grades of a source that a pass remembers.

ghost use Rattle.std.specs.Prelude.{◌≡◌, [], List, IfOk, IfSome};
ghost use Rattle.source_state.specs.declared.entry.LogEntry.{LogEntry};
ghost use Rattle.source_pool.specs.Remembering.{IsKept, IsSettled, AreSettled};

use ranked_list::{Need, Row};
use source_state::{Asked, Look, Memory, SourceState};
use std::alloc::Global;
use std::marker::Model;

/// The most grades that are remembered of a source.
pub const MOST_GRADES: u32 = 65_536;

/// The number of no object.
const NOBODY: u32 = 4_294_967_295;

/// What stands at a place where no grade is remembered.
const VACANT: Row = Row {
    object: NOBODY,
    grade: 0,
};

/// Grades by their objects, each at the one place that its object may have. To a contract it is the list of the places.
#[derive(Drop)]
pub struct Grades {
    room: u32,
    places: Vec<Row>,
}

impl Model for Grades {
    ghost use Rattle.std.specs.Prelude.{List};
    ghost use Rattle.ranked_list.specs.declared.row.Row.{Row};

    ghost Value = { List Row };

    ghost view = { λ a. a.places.items };
}

impl Grades {
    /// None, with a power of two of places for those of so many objects, at most `MOST_GRADES`. Only this call takes memory. What it takes is
    /// first written to when the first grade is remembered.
    pub fn make(alloc: Global, count: u32) -> Result<Grades, Memory>
        ensures { IfOk result (λ grades. grades ≡ []) }
    {
        let room = count.clamp(1, MOST_GRADES).next_power_of_two();
        let Ok(places) = Vec::with_capacity(alloc, room as usize) else {
            return Err(Memory);
        };
        Ok(Grades { room, places })
    }

    /// For how many there is room.
    pub(crate) fn room(&self) -> u32 {
        self.room
    }

    /// The grade that is remembered of an object.
    pub fn get(&self, object: u32) -> Option<u32>
        ensures { IfSome result (IsKept self.now object) }
    {
        if self.places.is_empty() {
            return None;
        }
        let row = self.places[object as usize & (self.places.len() - 1)];
        if row.object == object && object != NOBODY {
            Some(row.grade)
        } else {
            None
        }
    }

    /// Forgets all.
    pub fn clear(&mut self)
        ensures { self.new ≡ [] }
    {
        self.places.clear();
    }

    /// Makes the places where there are none yet, as many as there is room for.
    fn make_places(&mut self)
        ensures { (log : List LogEntry) → AreSettled log self.old → AreSettled log self.new }
    {
        if self.places.is_empty() {
            match self.places.resize(self.room as usize, VACANT) {
                Ok(()) | Err(_) => {}
            }
        }
    }

    /// Puts a grade at the place of its object, where there are places.
    fn put(&mut self, row: Row)
        ensures { (log : List LogEntry) → IsSettled log row → AreSettled log self.old → AreSettled log self.new }
    {
        if self.places.is_empty() {
            return;
        }
        let place = row.object as usize & (self.places.len() - 1);
        self.places[place] = row;
    }

    /// Remembers the grade of an object, where a state has settled it.
    fn learn(&mut self, state: &SourceState, object: u32)
        ensures { AreSettled state.now.log self.old → AreSettled state.now.log self.new }
    {
        if let Some(Asked::Graded(grade)) = state.asked(object) {
            self.make_places();
            self.put(Row { object, grade });
        }
    }

    /// Remembers the grade that a look at a state answered, where that is one for which the source was asked.
    ///
    /// *Cost*: one look-up, and with the first one all places are written to.
    pub fn keep(&mut self, state: &SourceState, need: Need, answer: Look)
        ensures { AreSettled state.now.log self.old → AreSettled state.now.log self.new }
    {
        match (need, answer) {
            (Need::Grade { object, .. }, Look::Grade(_)) => self.learn(state, object),
            _ => {}
        }
    }
}
