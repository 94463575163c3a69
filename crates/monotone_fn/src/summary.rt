//! The least and the greatest of some numbers, and their sum, without keeping the numbers.

ghost use Rattle.std.specs.Prelude.{◌≡◌, ℕ, List, [], ◌∷◌, ◌++◌, MatchOption};
ghost use Rattle.monotone_fn.specs.Shape.{IsGreatest};
ghost use Rattle.monotone_fn.specs.Value.{IsLeast};
ghost use Rattle.monotone_fn.specs.Summary.{Summarizes};

/// What some numbers come to.
#[derive(Clone, Copy)]
pub(crate) struct Summary {
    /// The least of them, if there is one.
    pub(crate) least: Option<u64>,
    /// The greatest of them, if there is one.
    pub(crate) greatest: Option<u64>,
    /// Their sum, or the last `u64` where it passes that.
    pub(crate) total: u64,
}

impl Summary {
    /// Of no numbers.
    pub(crate) fn start() -> Summary
        ensures { Summarizes [] result }
    {
        Summary {
            least: None,
            greatest: None,
            total: 0,
        }
    }

    /// Of the numbers and one more.
    pub(crate) fn with(self, value: u64) -> Summary
        ensures { (ns : List ℕ) → Summarizes ns self → Summarizes (ns ++ value ∷ []) result }
    {
        Summary {
            least: Some(least_with(self.least, value)),
            greatest: Some(greatest_with(self.greatest, value)),
            total: self.total.saturating_add(value),
        }
    }
}

/// The least of some numbers and one more.
#[tactic(auto, using(crate::proofs::Summaries::least_first))]
fn least_with(least: Option<u64>, value: u64) -> u64
    ensures { (ns : List ℕ) → MatchOption least (ns ≡ []) (IsLeast ns) → IsLeast (ns ++ value ∷ []) result }
{
    match least {
        Some(least) => least.min(value),
        None => value,
    }
}

/// The greatest of some numbers and one more.
#[tactic(auto, using(crate::proofs::Summaries::greatest_first))]
fn greatest_with(greatest: Option<u64>, value: u64) -> u64
    ensures { (ns : List ℕ) → MatchOption greatest (ns ≡ []) (IsGreatest ns) → IsGreatest (ns ++ value ∷ []) result }
{
    match greatest {
        Some(greatest) => greatest.max(value),
        None => value,
    }
}
