//! The first k objects in their order, which is read once, after the stop.

ghost use Rattle.std.specs.Prelude.{◌≡◌, ◌≤◌, [], length, vec_capacity};
ghost use Rattle.monotone_fn.specs.Shape.{list_count};
ghost use Rattle.monotone_fn.specs.Value.{value};
ghost use Rattle.topk_theory.specs.Order.{first_k};
ghost use Rattle.topk_theory.specs.Transcript.{seen_objects};
ghost use Rattle.topk_theory.specs.NoRandom.{seen_items};
ghost use Rattle.nra_core.specs.Late.{at_least};
ghost use Rattle.nra_core.specs.LatePlaces.{KeepsLate};

use super::late::{LateBounds, least_low};
use access_log::{Item, Transcript};
use machine_base::put_in_order;
use monotone_fn::Expr;

/// Puts the seen objects whose low is no less than the bound into `items`, which is empty and has room for all seen
/// ones, each with its bounds, in the order of first sight.
fn collect(expr: &Expr, transcript: &Transcript, bound: u64, items: &mut Vec<Item>)
    requires lists { transcript.now.lists ≡ list_count expr.now }
    requires empty { items.old.items ≡ [] }
    requires room { length (seen_objects transcript.now.accesses) ≤ vec_capacity items.old }
    ensures items { items.new.items ≡ at_least bound (seen_items (value expr.now) transcript.now.lists transcript.now.accesses) }
    ensures capacity { vec_capacity items.new ≡ vec_capacity items.old }
{
    for place in 0..transcript.seen() {
        let object = transcript.object_at(place);
        let low = transcript.low(expr, object);
        if low >= bound {
            items.push_reserved(Item {
                object,
                low,
                high: transcript.high(expr, object),
            });
        }
    }
}

impl LateBounds {
    /// Puts the first k seen objects by low falling, then high falling, then number rising, each with its bounds,
    /// into `items`, which is empty and has room for all seen ones. Goes through the seen objects once: those with
    /// a low below the k-th can't be among the first. Takes no memory.
    ///
    /// *Cost*: one value for each seen object, a second for those whose low is no less than the k-th, and their sort;
    /// once a query.
    pub fn first_items(&self, expr: &Expr, transcript: &Transcript, items: &mut Vec<Item>)
        requires lists { transcript.now.lists ≡ list_count expr.now }
        requires kept { KeepsLate expr.now transcript.now self.now }
        requires enough { self.now.k ≤ length (seen_objects transcript.now.accesses) }
        requires empty { items.old.items ≡ [] }
        requires room { length (seen_objects transcript.now.accesses) ≤ vec_capacity items.old }
        ensures items { items.new.items ≡ first_k self.now.k (seen_items (value expr.now) transcript.now.lists transcript.now.accesses) }
        ensures capacity { vec_capacity items.new ≡ vec_capacity items.old }
    {
        let Some(bound) = least_low(&self.first, self.k) else {
            return;
        };
        collect(expr, transcript, bound, items);
        put_in_order(items);
        items.truncate(self.k as usize);
    }
}
