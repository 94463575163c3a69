//! The first of some items, by low falling, then by high falling, then by the object's number rising.

ghost use Rattle.std.specs.Prelude.{◌≡◌};
ghost use Rattle.topk_theory.specs.Order.{AreDistinct, in_order, first_k, kth_low};

use machine_base::put_in_order;
use ranked_list::Item;

/// Some items in their order.
fn in_order(mut items: Vec<Item>) -> Vec<Item>
    requires { AreDistinct items.items }
    ensures { result.items ≡ in_order items.items }
{
    put_in_order(&mut items);
    items
}

/// The first k of some items in their order.
pub fn first_k(items: Vec<Item>, k: u32) -> Vec<Item>
    requires { AreDistinct items.items }
    ensures { result.items ≡ first_k k items.items }
{
    let mut items = in_order(items);
    items.truncate(k as usize);
    items
}

/// The low of the k-th of some items in their order, None where they are fewer.
pub fn kth_low_of(items: Vec<Item>, k: u32) -> Option<u64>
    requires { AreDistinct items.items }
    ensures { result ≡ kth_low k items.items }
{
    let items = in_order(items);
    let place = k.saturating_sub(1) as usize;
    items.get(place).map(|item| item.low)
}
