//! The order in which a board ranks its objects.

ghost use Rattle.std.specs.Prelude.{◌≡◌};
ghost use Rattle.std.proofs.Common.{rules};
ghost use Rattle.std.specs.Cmp.{partial_order_from_own_ties};
ghost use Rattle.std.specs.Cmp.Rules.{comparing};
ghost use Rattle.std.specs.Ordering.{nat_cmp, on, flip_args, then_cmp, as_partial_cmp};
ghost use Rattle.machine_base.specs.Rank.{item_of, rank_of};

use ranked_list::Item;
use std::cmp::Ordering;

/// An object with its bounds, of which the lesser stands first on a board: the one with the greater
/// low, at equal lows the one with the greater high, and at equal bounds the one with the smaller id.
#[derive(Clone, Copy, PartialEq, Eq)]
pub(crate) struct Rank {
    pub low: u64,
    pub high: u64,
    pub object: u32,
}

impl Ord for Rank {
    ghost cmp = { then_cmp (then_cmp (flip_args (on (λ r. r.low) nat_cmp)) (flip_args (on (λ r. r.high) nat_cmp))) (on (λ r. r.object) nat_cmp) };

    ghost total = { Prim.search (comparing, rules) };

    ghost matches_partial_cmp = { Prim.search (comparing, rules) };

    ghost matches_eq = { Prim.search (comparing, rules) };

    fn cmp(&self, other: &Rank) -> Ordering {
        if self.low != other.low {
            return other.low.cmp(&self.low);
        }
        if self.high != other.high {
            return other.high.cmp(&self.high);
        }
        self.object.cmp(&other.object)
    }
}

impl PartialOrd for Rank {
    ghost partial_cmp = { as_partial_cmp
        (then_cmp (then_cmp (flip_args (on (λ r. r.low) nat_cmp)) (flip_args (on (λ r. r.high) nat_cmp))) (on (λ r. r.object) nat_cmp)) };

    ghost laws = { partial_order_from_own_ties (Prim.search (comparing, rules)) (Prim.search (comparing, rules)) };

    fn partial_cmp(&self, other: &Rank) -> Option<Ordering> {
        Some(self.cmp(other))
    }
}

impl Rank {
    pub(crate) fn of(item: Item) -> Rank
        ensures { result ≡ rank_of item }
    {
        Rank {
            low: item.low,
            high: item.high,
            object: item.object,
        }
    }

    pub(crate) fn item(self) -> Item
        ensures { result ≡ item_of self }
    {
        Item {
            object: self.object,
            low: self.low,
            high: self.high,
        }
    }
}
