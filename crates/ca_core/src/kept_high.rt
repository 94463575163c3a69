//! The order in which objects are chosen.

ghost use Rattle.std.proofs.Common.{rules};
ghost use Rattle.std.specs.Cmp.{partial_order_from_own_ties};
ghost use Rattle.std.specs.Cmp.Rules.{comparing};
ghost use Rattle.std.specs.Ordering.{nat_cmp, on, flip_args, then_cmp, as_partial_cmp};

use std::cmp::Ordering;

/// An object with a high that was its own once, of which the greater is chosen first: the one with the greater
/// high, and at equal highs the one with the smaller number.
#[derive(Clone, Copy, Debug, PartialEq, Eq)]
pub struct KeptHigh {
    pub high: u64,
    pub object: u32,
}

impl Ord for KeptHigh {
    ghost cmp = { then_cmp (on (λ r. r.high) nat_cmp) (flip_args (on (λ r. r.object) nat_cmp)) };

    ghost total = { Prim.search (comparing, rules) };

    ghost matches_partial_cmp = { Prim.search (comparing, rules) };

    ghost matches_eq = { Prim.search (comparing, rules) };

    fn cmp(&self, other: &KeptHigh) -> Ordering {
        if self.high != other.high {
            return self.high.cmp(&other.high);
        }
        other.object.cmp(&self.object)
    }
}

impl PartialOrd for KeptHigh {
    ghost partial_cmp = { as_partial_cmp (then_cmp (on (λ r. r.high) nat_cmp) (flip_args (on (λ r. r.object) nat_cmp))) };

    ghost laws = { partial_order_from_own_ties (Prim.search (comparing, rules)) (Prim.search (comparing, rules)) };

    fn partial_cmp(&self, other: &KeptHigh) -> Option<Ordering> {
        Some(self.cmp(other))
    }
}
