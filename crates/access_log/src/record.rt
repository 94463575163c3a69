//! What is kept of one object.

ghost use Rattle.std.specs.Prelude.{◌≡◌, ◌<◌, ℕ, List, [], ◌∷◌, ◌++◌, length};
ghost use Rattle.topk_theory.specs.declared.access.Access.{Access as Made};
ghost use Rattle.topk_theory.specs.Transcript.{list_of, object_of, seen_objects};
ghost use Rattle.topk_theory.specs.Consistent.{SomeAgrees};
ghost use Rattle.access_log.specs.RecordsKept.{IsRecordOf};

use topk_base::MAX_LISTS;
use topk_theory::Access;

/// What the accesses tell of an object: by the numbers of the lists its known grades, and which lists
/// gave it by sorted access; and its place in the order of first sight, once it is seen.
#[derive(Clone, Copy)]
pub struct Record {
    /// Its known grades.
    pub known: [Option<u32>; MAX_LISTS],
    /// Which lists gave it by sorted access.
    pub read: [bool; MAX_LISTS],
    /// Its place in the order of first sight, from 0.
    pub sight: Option<u32>,
}

impl Record {
    /// Notes an access of the object, which some table agrees with. `seen` is how many objects were seen before.
    pub fn note(&mut self, access: Access, seen: u32)
        requires list { list_of access < MAX_LISTS }
        ensures { (m n : ℕ) (A : List Made) → SomeAgrees m n (A ++ access ∷ [])
            → seen ≡ length (seen_objects A) → IsRecordOf m A (object_of access) self.old
            → IsRecordOf m (A ++ access ∷ []) (object_of access) self.new }
    {
        let list = access.list() as usize;
        self.known[list] = Some(access.grade());
        if access.is_sorted() {
            self.read[list] = true;
            if self.sight.is_none() {
                self.sight = Some(seen);
            }
        }
    }
}
