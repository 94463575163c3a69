//! The answer.

ghost use Rattle.std.specs.Prelude.{◌≡◌, ◌≢◌, ℕ, map, AllPairs};
ghost use Rattle.ranked_list.specs.declared.item.Item.{Item};
ghost use Rattle.monotone_fn.specs.Shape.{list_count};
ghost use Rattle.monotone_fn.specs.Value.{value};
ghost use Rattle.topk_theory.specs.Order.{in_order};
ghost use Rattle.topk_theory.specs.Threshold.{item_objects};
ghost use Rattle.ca_core.specs.Course.{valued};

use access_log::{Item, Transcript};
use machine_base::put_in_order;
use monotone_fn::Expr;

/// Gives each item, all grades of whose object are known, its aggregate as both bounds.
fn score(expr: &Expr, transcript: &Transcript, items: &mut [Item])
    requires { transcript.now.lists ≡ list_count expr.now }
    ensures { items.new ≡ map (λ (item : Item). valued (value expr.now) transcript.now.lists transcript.now.accesses item.object) items.old }
{
    for item in items.iter_mut() {
        let aggregate = transcript.low(expr, item.object);
        item.low = aggregate;
        item.high = aggregate;
    }
}

/// Scores items, all grades of whose objects are known, and puts them in order: by aggregate falling, then by
/// number rising.
fn rank(expr: &Expr, transcript: &Transcript, items: &mut [Item])
    requires lists { transcript.now.lists ≡ list_count expr.now }
    requires apart { AllPairs (λ (one other : ℕ). one ≢ other) (item_objects items.old) }
    ensures { items.new ≡ in_order (map (λ (item : Item). valued (value expr.now) transcript.now.lists transcript.now.accesses item.object) items.old) }
{
    score(expr, transcript, items);
    put_in_order(items);
}

/// Items, all grades of whose objects are known, by aggregate falling, then by number rising, with their
/// aggregates as both bounds. Takes no memory.
pub(crate) fn answer_items(expr: &Expr, transcript: &Transcript, items: Vec<Item>) -> Vec<Item>
    requires lists { transcript.now.lists ≡ list_count expr.now }
    requires apart { AllPairs (λ (one other : ℕ). one ≢ other) (item_objects items.items) }
    ensures { result.items ≡ in_order (map (λ (item : Item). valued (value expr.now) transcript.now.lists transcript.now.accesses item.object) items.items) }
{
    let mut items = items;
    rank(expr, transcript, &mut items);
    items
}
