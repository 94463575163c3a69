//! The map from objects to their values.

ghost use Rattle.std.specs.Prelude.{◌≡◌, ◌<◌, ◌≤◌, ◌+◌, ℕ, Some, None, nat_eq, slice_set, slice_index_or, length, IfOk, OnOk, OnErr, IsOk};
ghost use Rattle.std.specs.Map.{lookup};
ghost use Rattle.std.specs.HashMap.{spare};
ghost use Rattle.containers.specs.Values.{value_of, IsSame, IsSet};

use super::Memory;
use std::alloc::Global;
use std::collections::HashMap;
use std::marker::Model;

/// The bound below which the number of an object may be a place in a table.
const NEAR: u32 = 1_048_576;

/// A value for each of some objects. Contracts see it as `Values`.
///
/// An object below the reach of its table is found there at once. Every other one is found by its hash.
#[derive(Drop)]
pub struct ObjectMap<V: Copy> {
    near: Vec<Option<V>>,
    far: HashMap<u32, V>,
}

impl<V: Copy> Model for ObjectMap<V> {
    ghost use Rattle.std.specs.HashMap.{spare};
    ghost use Rattle.containers.specs.Values.{Values};

    ghost Value = { Values V };

    ghost view = { λ a. record { near = a.near.items; far = a.far.entries; spare = spare a.far } };
}

/// What a table has at the number of an object.
fn value_near<V: Copy>(near: &[Option<V>], object: u32) -> Option<V>
    ensures { result ≡ slice_index_or near.now object None }
{
    match near.get(object as usize) {
        Some(value) => *value,
        None => None,
    }
}

/// What is found by the hash of an object.
fn value_far<V: Copy>(far: &HashMap<u32, V>, object: u32) -> Option<V>
    ensures { result ≡ lookup (nat_eq object) far.now.entries }
{
    if far.is_empty() {
        return None;
    }
    far.get(&object).copied()
}

/// Writes the value at a place of a table.
fn write<V: Copy>(near: &mut [Option<V>], object: u32, value: V)
    requires { object < length near.old }
    ensures { near.new ≡ slice_set near.old object (Some value) }
{
    near[object as usize] = Some(value);
}

impl<V: Copy> ObjectMap<V> {
    /// A map without values. Takes no memory.
    pub fn make(alloc: Global) -> ObjectMap<V>
        ensures { (object : ℕ) → value_of result object ≡ None }
    {
        ObjectMap {
            near: Vec::new(alloc),
            far: HashMap::new(alloc),
        }
    }

    /// The value of an object, or None where it has none.
    ///
    /// *Cost*: a place of a table where the number is below its reach, else a look-up by hash.
    pub fn get(&self, object: u32) -> Option<V>
        ensures { result ≡ value_of self.now object }
    {
        match value_near(&self.near, object) {
            Some(value) => Some(value),
            None => value_far(&self.far, object),
        }
    }

    /// Gives an object a value, and answers the one that it had. It can't be refused where memory is held for one more object.
    ///
    /// *Cost*: a place of a table where the number is below its reach, else a look-up by hash.
    pub fn insert(&mut self, object: u32, value: V) -> Result<Option<V>, Memory>
        ensures before { IfOk result (λ before. before ≡ value_of self.old object) }
        ensures set { OnOk result (IsSet self.old self.new object value) }
        ensures err { OnErr result (IsSame self.old self.new) }
        ensures succeeds { 0 < self.old.spare → IsOk result }
        ensures spare { self.old.spare ≤ self.new.spare + 1 }
    {
        if (object as usize) < self.near.len() {
            let before = self.get(object);
            write(&mut self.near, object, value);
            return Ok(before);
        }
        let Ok(before) = self.far.insert(object, value) else {
            return Err(Memory);
        };
        Ok(before)
    }

    /// Holds memory for values of `more` objects more. Where it is refused nothing has changed.
    pub fn reserve(&mut self, more: u32) -> Result<(), Memory>
        ensures same { IsSame self.old self.new }
        ensures ok { OnOk result (more ≤ self.new.spare) }
        ensures no_less { self.old.spare ≤ self.new.spare }
    {
        self.far.reserve(more as usize)?;
        Ok(())
    }

    /// Has the objects below `bound`, as far as they are below 1,048,576, found in the table from now on. That takes memory, and
    /// changes no value.
    ///
    /// *Cost*: what it clears.
    pub fn widen(&mut self, bound: u32) -> Result<(), Memory>
        ensures same { IsSame self.old self.new }
        ensures spare { self.new.spare ≡ self.old.spare }
    {
        let len = bound.min(NEAR) as usize;
        if len > self.near.len() {
            self.near.resize(len, None)?;
        }
        Ok(())
    }

    /// Has an object below 1,048,576 found in the table from now on. The table grows at least twofold, so that many objects come
    /// to little each. That takes memory, and changes no value.
    ///
    /// *Cost*: what it clears; the reach doubles.
    pub fn reach(&mut self, object: u32) -> Result<(), Memory>
        ensures same { IsSame self.old self.new }
        ensures spare { self.new.spare ≡ self.old.spare }
    {
        if object >= NEAR || (object as usize) < self.near.len() {
            return Ok(());
        }
        self.widen(2 * object + 2)
    }
}
