//! Objects by their numbers and ranks by key, with room that is taken once.
//!
//! `ObjectMap` finds the value of an object, and `RoomMap` the place at which a key was added. Small numbers stand in a table
//! by the number itself, the others are found by their hash. From `make` on no key that is added to a `RoomMap` takes memory.
//!
//! An `IndexedHeap` has the greatest rank at hand, and `RankedSlots` the least of those in its slots.
//!
//! The keys of a heap are the numbers below a room that is taken once: from then on no change takes memory, and each costs at
//! most the logarithm of the number of keys that have a rank. Slots can also be gone through, and the slot of a key is found
//! at once.
#![tactic(auto)]

mod changes;
mod heap;
mod map;
mod room_map;
mod slots;
mod tree;

pub use heap::IndexedHeap;
pub use map::ObjectMap;
pub use room_map::RoomMap;
pub use slots::{Entry, RankedSlots};
pub use topk_base::Memory;
pub use tree::Ranked;
