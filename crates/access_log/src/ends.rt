//! How far the lists are read.

ghost use Rattle.std.specs.Prelude.{◌<◌, ◌≤◌, ◌-◌, ◌^◌, ℕ, List, [], ◌∷◌, ◌++◌};
ghost use Rattle.std.specs.List.{slice_index_or};
ghost use Rattle.topk_theory.specs.declared.access.Access.{Access as Made};
ghost use Rattle.topk_theory.specs.Transcript.{list_of};
ghost use Rattle.access_log.specs.RecordsKept.{AreEndsOf};

use topk_base::{MAX_LISTS, TOP_GRADE};
use topk_theory::Access;

/// By the numbers of the lists how deep each is read and the last grade that it gave, and how many
/// accesses were sorted.
#[derive(Clone, Copy)]
pub struct Ends {
    /// How many rows of each list sorted accesses read.
    pub depths: [u32; MAX_LISTS],
    /// The last grade that each list gave, and the greatest grade before the first.
    pub bottoms: [u32; MAX_LISTS],
    /// How many accesses were sorted.
    pub sorted: u64,
}

impl Ends {
    /// The ends before any access.
    pub fn start() -> Ends
        ensures { (m : ℕ) → m ≤ MAX_LISTS → AreEndsOf m [] result }
    {
        Ends {
            depths: [0; MAX_LISTS],
            bottoms: [TOP_GRADE; MAX_LISTS],
            sorted: 0,
        }
    }

    /// Notes an access.
    pub fn note(&mut self, access: Access)
        requires list { list_of access < MAX_LISTS }
        requires depth { slice_index_or self.old.depths (list_of access) 0 < 2 ^ 32 - 1 }
        requires sorted { self.old.sorted < 2 ^ 63 }
        ensures { (m : ℕ) (A : List Made) → AreEndsOf m A self.old
            → AreEndsOf m (A ++ access ∷ []) self.new }
    {
        if access.is_sorted() {
            let list = access.list() as usize;
            self.depths[list] += 1;
            self.bottoms[list] = access.grade();
            self.sorted += 1;
        }
    }
}
