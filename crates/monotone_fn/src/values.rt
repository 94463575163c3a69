//! A few numbers in order, which take no memory from an allocator.

ghost use Rattle.std.specs.Prelude.{◌≡◌, ◌<◌, [], ◌∷◌, ◌++◌, length};
ghost use Rattle.monotone_fn.specs.Value.{median, IsMedian};

use std::marker::Model;
use topk_base::MAX_NODES;

/// As many numbers as an expression may have nodes, at most. Contracts see their list.
#[derive(Drop)]
pub(crate) struct Values {
    room: [u64; MAX_NODES],
    count: usize,
}

impl Model for Values {
    ghost use Rattle.std.specs.Prelude.{ℕ, ◌≤◌, List, take};
    ghost use Rattle.topk_base.specs.declared.TheConstants.{MAX_NODES};

    ghost Value = { List ℕ };

    ghost view = { λ a. take a.count a.room };

    ghost invariant = { λ a. a.count ≤ MAX_NODES };
}

impl Values {
    /// No numbers.
    pub(crate) fn new() -> Values
        ensures { result ≡ [] }
    {
        Values {
            room: [0; MAX_NODES],
            count: 0,
        }
    }

    /// Puts a number at the end.
    pub(crate) fn push(&mut self, value: u64)
        requires { length self.old < MAX_NODES }
        ensures { self.new ≡ self.old ++ value ∷ [] }
    {
        self.room[self.count] = value;
        self.count += 1;
    }

    /// Their lower median.
    pub(crate) fn median(mut self) -> u64
        ensures median { result ≡ median self }
        ensures counted { 0 < length self → IsMedian self result }
    {
        let count = self.count;
        median_of(&mut self.room[..count])
    }
}

// The lower median, or 0 where there is none. It leaves the numbers sorted.
fn median_of(numbers: &mut [u64]) -> u64
    ensures median { result ≡ median numbers.old }
    ensures counted { 0 < length numbers.old → IsMedian numbers.old result }
{
    if numbers.is_empty() {
        return 0;
    }
    numbers.sort_unstable();
    numbers[(numbers.len() - 1) / 2]
}
