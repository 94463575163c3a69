//! Sets of objects.

use super::Memory;
use indexmap::IndexSet;
use std::alloc::Global;
use std::marker::Model;

/// Objects, each once, which contracts see as their list.
#[derive(Drop)]
pub struct Objects {
    keys: IndexSet<u32>,
}

impl Model for Objects {
    ghost use Rattle.std.specs.Prelude.{List, ℕ};

    ghost Value = { List ℕ };

    ghost view = { λ a. a.keys.keys };
}

impl Objects {
    ghost use Rattle.std.specs.Prelude.{◌≡◌, [], not, IfOk, OnOk};
    ghost use Rattle.cert_judge.specs.Objects.{has, with_object};

    /// No objects.
    pub fn make(alloc: Global) -> Objects
        ensures { result ≡ [] }
    {
        Objects {
            keys: IndexSet::new(alloc),
        }
    }

    /// Adds an object, unless it is there, and says whether it wasn't.
    pub fn add(&mut self, object: u32) -> Result<bool, Memory>
        ensures is_new { IfOk result (λ is_new. is_new ≡ not (has object self.old)) }
        ensures added { OnOk result (self.new ≡ with_object object self.old) }
    {
        let is_new = self.keys.insert(object)?;
        Ok(is_new)
    }

    /// Whether the object is there.
    pub fn has(&self, object: u32) -> bool
        ensures { result ≡ has object self.now }
    {
        self.keys.contains(&object)
    }
}
