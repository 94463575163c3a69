//! What a pass remembers of a source.

ghost use Rattle.std.specs.Prelude.{◌≡◌, None, IfOk, IfSome};
ghost use Rattle.source_state.specs.Log.{rows_in};
ghost use Rattle.source_pool.specs.Windows.{row_held, window_after, IsInReach};
ghost use Rattle.source_pool.specs.Remembering.{nothing, IsHeld, AreSettled};

use super::grades::Grades;
use super::window::Window;
use ranked_list::Need;
use source_state::{Look, Memory, SourceState};
use std::alloc::Global;

/// Rows of a source that were copied in the last turns, and grades of it that were settled.
#[derive(Drop)]
pub struct Remembered {
    pub rows: Window,
    pub grades: Grades,
}

impl Remembered {
    /// Nothing, with room for the rows of a window and for the grades of so many objects. Only this call takes memory.
    pub fn make(alloc: Global, count: u32) -> Result<Remembered, Memory>
        ensures { IfOk result (λ remembered. remembered ≡ nothing) }
    {
        let rows = Window::make(alloc)?;
        let grades = Grades::make(alloc, count)?;
        Ok(Remembered { rows, grades })
    }

    /// The row or the grade that is needed, where it is remembered.
    ///
    /// *Cost*: one read.
    pub fn answer(&self, need: Need) -> Option<Look>
        ensures held { IfSome result (IsHeld self.now need) }
        ensures unheld { result ≡ None → row_held self.now.rows need ≡ None }
    {
        match need {
            Need::Row { depth, .. } => match self.rows.get(depth) {
                Some(row) => Some(Look::Row(row)),
                None => None,
            },
            Need::Grade { object, .. } => match self.grades.get(object) {
                Some(grade) => Some(Look::Grade(grade)),
                None => None,
            },
            Need::Done => None,
        }
    }

    /// Forgets all.
    pub fn clear(&mut self)
        ensures { self.new ≡ nothing }
    {
        self.rows.clear();
        self.grades.clear();
    }

    /// Remembers what a look at a state answered: from a needed row on the rows of the state, and a needed grade that was settled, unless it was
    /// waited for: who waited has it.
    pub fn keep(&mut self, state: &SourceState, need: Need, answer: Look, waited: bool)
        requires reach { IsInReach need }
        ensures rows { self.new.rows ≡ window_after answer need (rows_in state.now.log) self.old.rows }
        ensures grades { AreSettled state.now.log self.old.grades → AreSettled state.now.log self.new.grades }
    {
        self.rows.fill_after(state, need, answer);
        if !waited {
            self.grades.keep(state, need, answer);
        }
    }
}
