//! Items put in the order of a board.

ghost use Rattle.std.specs.Prelude.{◌≡◌};
ghost use Rattle.topk_theory.specs.Order.{in_order, AreDistinct};

use super::rank::Rank;
use ranked_list::Item;

/// Puts items of different objects in order: by low falling, then by high falling, then by id rising.
/// Takes no memory.
///
/// *Cost*: a sort in place.
pub fn put_in_order(items: &mut [Item])
    requires { AreDistinct items.old }
    ensures { items.new ≡ in_order items.old }
{
    items.sort_unstable_by_key(|item| Rank::of(*item));
}
