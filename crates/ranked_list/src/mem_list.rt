//! A ranked list in memory.

ghost use Rattle.ranked_list.specs.declared.row.Row.{Row};
ghost use Rattle.std.specs.Slice.Iter.{iter_rest};
ghost use Rattle.std.specs.Iterator.Adapters.{IterYieldsInOrder};
ghost use Rattle.std.specs.Prelude.{◌≡◌, ◌==◌, ◌+◌, ◌-◌, ◌<◌, ◌^◌, [], ◌∷◌, ◌++◌, length, slice_get, OnOk, OnErr};

use super::Memory;
use super::row::Row;
use std::alloc::Global;
use std::marker::Model;
use std::slice::Iter;

/// Rows in order, which contracts see as their list.
#[derive(Drop)]
pub struct MemList {
    rows: Vec<Row>,
}

impl Model for MemList {
    ghost use Rattle.std.specs.Prelude.{List, ◌<◌, ◌^◌, vec_len};
    ghost use Rattle.ranked_list.specs.declared.row.Row.{Row};

    ghost Value = { List Row };

    ghost view = { λ a. a.rows.items };

    ghost invariant = { λ a. vec_len a.rows < 2 ^ 32 };
}

impl MemList {
    /// A list without rows. Takes no memory yet.
    pub fn make(alloc: Global) -> MemList
        ensures { result ≡ [] }
    {
        MemList {
            rows: Vec::new(alloc),
        }
    }

    /// Puts a row at the end. Where memory is refused nothing has changed.
    pub fn push(&mut self, row: Row) -> Result<(), Memory>
        requires { length self.old + 1 < 2 ^ 32 }
        ensures ok { OnOk result (self.new ≡ self.old ++ row ∷ []) }
        ensures err { OnErr result (self.new ≡ self.old) }
    {
        self.rows.push(row)?;
        Ok(())
    }

    /// How many rows there are.
    pub fn len(&self) -> u32
        ensures { result ≡ length self.now }
    {
        self.rows.len() as u32
    }

    /// Whether there are none.
    pub fn is_empty(&self) -> bool
        ensures { result ≡ (length self.now == 0) }
    {
        self.rows.is_empty()
    }

    /// The row at a place from 0, or None past the end.
    pub fn get(&self, place: u32) -> Option<Row>
        ensures { result ≡ slice_get self.now place }
    {
        self.rows.get(place as usize).copied()
    }

    /// The rows, in their order.
    pub fn iter(&self) -> Iter<'_, Row>
        ensures rest { iter_rest result ≡ self.now }
        ensures few { length (iter_rest result) < 2 ^ 32 }
        ensures runs { IterYieldsInOrder Row }
    {
        self.rows.iter()
    }
}
