//! Rows of a source that a pass copied in one turn.

ghost use Rattle.std.specs.Prelude.{◌≡◌, ◌≤◌, [], length, IfOk, vec_len, vec_capacity};
ghost use Rattle.source_state.specs.Log.{rows_in};
ghost use Rattle.source_pool.specs.Windows.{no_rows, most_rows, row_held, held_at, rows_from, filled, window_after, IsInReach};

use ranked_list::{Need, Row};
use source_state::{Look, Memory, SourceState};
use std::alloc::Global;
use std::marker::Model;
use topk_base::MAX_OBJECTS;

/// How many rows a window has at most.
pub const WINDOW_ROWS: u32 = 256;

/// Some rows of a source, one after another. To a contract it is the depth of the first, and the rows.
#[derive(Drop)]
pub struct Window {
    first: u32,
    rows: Vec<Row>,
}

impl Model for Window {
    ghost use Rattle.std.specs.Prelude.{◌≡◌, ◌≤◌, vec_len, vec_capacity};
    ghost use Rattle.source_pool.specs.Windows.{RowsFrom, most_rows};

    ghost Value = { RowsFrom };

    ghost view = { λ a. record { first = a.first; rows = a.rows.items } };

    ghost invariant = { λ a. (vec_len a.rows ≤ most_rows) × (most_rows ≤ vec_capacity a.rows) };
}

/// Copies the rows of a state from a depth on into a vector without rows, as many as there are or as a window has.
fn copy_rows(rows: &mut Vec<Row>, state: &SourceState, depth: u32)
    requires depth { (1 ≤ depth) × (depth ≤ MAX_OBJECTS) }
    requires room { (rows.old.items ≡ []) × (most_rows ≤ vec_capacity rows.old) }
    ensures rows { rows.new.items ≡ (rows_from (rows_in state.now.log) depth).rows }
    ensures few { vec_len rows.new ≤ most_rows }
    ensures room { most_rows ≤ vec_capacity rows.new }
{
    for place in 0..WINDOW_ROWS {
        let Some(row) = state.row(depth - 1 + place) else {
            return;
        };
        rows.push_reserved(row);
    }
}

impl Window {
    /// No rows, with room for as many as a window has. Only this call takes memory.
    pub fn make(alloc: Global) -> Result<Window, Memory>
        ensures { IfOk result (λ window. window ≡ no_rows) }
    {
        let Ok(rows) = Vec::with_capacity(alloc, WINDOW_ROWS as usize) else {
            return Err(Memory);
        };
        Ok(Window { first: 1, rows })
    }

    /// The row at a depth, or None where the window hasn't it.
    pub fn get(&self, depth: u32) -> Option<Row>
        ensures { result ≡ held_at self.now depth }
    {
        if depth < self.first {
            return None;
        }
        self.rows.get((depth - self.first) as usize).copied()
    }

    /// The depth of its first row.
    pub fn first(&self) -> u32
        ensures { result ≡ self.now.first }
    {
        self.first
    }

    /// How many rows it has.
    pub fn len(&self) -> u32
        ensures { result ≡ length self.now.rows }
    {
        self.rows.len() as u32
    }

    /// The row that is needed, or None where that is no row or the window hasn't it.
    pub fn row(&self, need: Need) -> Option<Row>
        ensures { result ≡ row_held self.now need }
    {
        match need {
            Need::Row { depth, .. } => self.get(depth),
            Need::Grade { .. } | Need::Done => None,
        }
    }

    /// Lets its rows go.
    pub fn clear(&mut self)
        ensures { self.new ≡ no_rows }
    {
        self.first = 1;
        self.rows.clear();
    }

    /// Copies the rows of a state from a depth on, as many as there are or as a window has.
    ///
    /// *Cost*: one look-up for each row.
    pub fn fill(&mut self, state: &SourceState, depth: u32)
        requires { (1 ≤ depth) × (depth ≤ MAX_OBJECTS) }
        ensures { self.new ≡ rows_from (rows_in state.now.log) depth }
    {
        self.clear();
        self.first = depth;
        copy_rows(&mut self.rows, state, depth);
    }

    /// Copies the rows of a state from a needed row on.
    fn fill_from(&mut self, state: &SourceState, need: Need)
        requires { IsInReach need }
        ensures { self.new ≡ filled need (rows_in state.now.log) self.old }
    {
        match need {
            Need::Row { depth, .. } => self.fill(state, depth),
            Need::Grade { .. } | Need::Done => {}
        }
    }

    /// Copies the rows of a state from a needed row on, where that is what a look answered.
    pub(crate) fn fill_after(&mut self, state: &SourceState, need: Need, answer: Look)
        requires { IsInReach need }
        ensures { self.new ≡ window_after answer need (rows_in state.now.log) self.old }
    {
        match answer {
            Look::Row(_) => self.fill_from(state, need),
            Look::Grade(_) | Look::NotYet | Look::Fault(_) => {}
        }
    }
}
