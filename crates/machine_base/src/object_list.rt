//! Lists of objects, whatever keeps them.

ghost use Rattle.std.specs.Prelude.{◌≡◌, ◌<◌, ℕ, List, Some, length, slice_get};
ghost use Rattle.topk_theory.specs.Threshold.{item_objects};
ghost use Rattle.topk_theory.specs.Transcript.{seen_objects};

use access_log::Transcript;
use ranked_list::Item;

/// Objects in some order, which are asked for one after another.
pub trait ObjectList {
    ghost objects: { Self → List ℕ };

    /// How many objects there are.
    fn size(&self) -> usize
        ensures { result ≡ length (objects self.now) };

    /// The object at a place, from 0.
    fn object(&self, place: usize) -> u32
        requires { place < length (objects self.now) }
        ensures { slice_get (objects self.now) place ≡ Some result };
}

/// The objects of items, in their order.
impl ObjectList for &[Item] {
    ghost objects = { λ items. item_objects items.now };

    fn size(&self) -> usize {
        self.len()
    }

    fn object(&self, place: usize) -> u32 {
        self[place].object
    }
}

/// Objects as they stand.
impl ObjectList for &[u32] {
    ghost objects = { λ objects. objects.now };

    fn size(&self) -> usize {
        self.len()
    }

    fn object(&self, place: usize) -> u32 {
        self[place]
    }
}

/// The seen objects, in the order of first sight.
impl ObjectList for &Transcript {
    ghost objects = { λ log. seen_objects log.now.accesses };

    fn size(&self) -> usize {
        self.seen() as usize
    }

    fn object(&self, place: usize) -> u32 {
        // Serves the prover alone: `seen` promises that there are fewer than 2^32 seen objects.
        let _seen = self.seen();
        self.object_at(place as u32)
    }
}
