//! The grades that are known ahead of the lists.

ghost use Rattle.std.specs.Prelude.{◌≡◌, ◌≢◌, ◌<◌, ◌≤◌, ℕ, List, [], ◌∷◌, ◌++◌, Some, length, slice_get, AllPairs, IfOk, OnOk};
ghost use Rattle.topk_theory.specs.declared.access.Access.{Access as Made};
ghost use Rattle.topk_theory.specs.Transcript.{list_of, object_of, named_objects};
ghost use Rattle.topk_theory.specs.Consistent.{SomeAgrees};
ghost use Rattle.access_log.specs.RecordsKept.{AreAhead, AreWider, HaveRoom, IsGreatestAhead, heap_at, is_read};

use super::Memory;
use containers::IndexedHeap;
use std::alloc::Global;
use topk_base::MAX_OBJECTS;
use topk_theory::Access;

/// For each list the grades that are known of objects which it hasn't given yet, by the objects'
/// places.
#[derive(Drop)]
pub struct Ahead {
    /// By the numbers of the lists.
    pub heaps: Vec<IndexedHeap<u32>>,
}

impl Ahead {
    /// No grades, and no room for any.
    pub fn make(alloc: Global, lists: u8) -> Result<Ahead, Memory>
        ensures empty { IfOk result (λ ahead. AreAhead lists [] [] ahead.heaps.items) }
    {
        let mut heaps = Vec::with_capacity(alloc, lists as usize)?;
        for list in 0..lists {
            heaps.push_reserved(IndexedHeap::make(alloc, 0)?);
        }
        Ok(Ahead { heaps })
    }

    /// Gives each heap room for `room` objects. Where memory is refused some may have it.
    pub fn widen(&mut self, room: u32) -> Result<(), Memory>
        requires { room ≤ MAX_OBJECTS }
        ensures wider { AreWider self.old.heaps.items self.new.heaps.items }
        ensures room { OnOk result (HaveRoom room self.new.heaps.items) }
    {
        for list in 0..self.heaps.len() {
            self.heaps[list].widen(room)?;
        }
        Ok(())
    }

    /// Notes an access of the object at a place. `read` says whether its list gave the object before.
    pub fn note(&mut self, place: u32, read: bool, access: Access)
        requires list { list_of access < length self.old.heaps.items }
        requires place { place < length (heap_at self.old.heaps.items (list_of access)) }
        ensures notes { (m n : ℕ) (A : List Made) (names : List ℕ) → SomeAgrees m n (A ++ access ∷ [])
            → AllPairs (λ (a : ℕ) (b : ℕ). a ≢ b) names → slice_get names place ≡ Some (object_of access)
            → read ≡ is_read A (object_of access) (list_of access)
            → AreAhead m A names self.old.heaps.items
            → AreAhead m (A ++ access ∷ []) names self.new.heaps.items }
        ensures room { (room : ℕ) → HaveRoom room self.old.heaps.items → HaveRoom room self.new.heaps.items }
    {
        let list = access.list() as usize;
        if access.is_sorted() {
            self.heaps[list].remove(place);
        } else if !read {
            self.heaps[list].put(place, access.grade());
        }
    }

    /// The greatest grade that is known ahead of the list.
    pub fn greatest(&self, list: u8) -> Option<u32>
        requires { list < length self.now.heaps.items }
        ensures { (m : ℕ) (A : List Made) → list < m → AreAhead m A (named_objects A) self.now.heaps.items
            → IsGreatestAhead A list result }
    {
        let top = self.heaps[list as usize].greatest()?;
        Some(top.rank)
    }
}
