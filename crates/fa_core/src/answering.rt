//! The answer.

ghost use Rattle.std.specs.Prelude.{◌≡◌, ◌≤◌, [], length, map, vec_capacity};
ghost use Rattle.monotone_fn.specs.Shape.{list_count};
ghost use Rattle.monotone_fn.specs.Value.{value};
ghost use Rattle.topk_theory.specs.Order.{AreDistinct, in_order, first_k};
ghost use Rattle.topk_theory.specs.Transcript.{seen_objects};
ghost use Rattle.fa_core.specs.Course.{valued};

use access_log::{Item, Transcript};
use machine_base::put_in_order;
use monotone_fn::Expr;

/// Puts the seen objects, all grades of which are known, into `items`, which is empty and has room for them: each with
/// its aggregate as both bounds, in the order of first sight.
fn collect(expr: &Expr, transcript: &Transcript, items: &mut Vec<Item>)
    requires lists { transcript.now.lists ≡ list_count expr.now }
    requires empty { items.old.items ≡ [] }
    requires room { length (seen_objects transcript.now.accesses) ≤ vec_capacity items.old }
    ensures items { items.new.items ≡ map (valued (value expr.now) transcript.now.lists transcript.now.accesses) (seen_objects transcript.now.accesses) }
{
    for place in 0..transcript.seen() {
        let object = transcript.object_at(place);
        let aggregate = transcript.low(expr, object);
        items.push_reserved(Item {
            object,
            low: aggregate,
            high: aggregate,
        });
    }
}

/// Items of different objects in order: by aggregate falling, then by number rising. Takes no memory.
fn ranked(items: Vec<Item>) -> Vec<Item>
    requires { AreDistinct items.items }
    ensures { result.items ≡ in_order items.items }
{
    let mut items = items;
    put_in_order(&mut items);
    items
}

/// The first k of the seen objects, all grades of which are known: by aggregate falling, then by number rising, each with
/// its aggregate as both bounds. They come into `items`, which is empty and has room for all seen ones. Takes no memory.
///
/// *Cost*: one evaluation for each seen object, and a sort of them in place; once a query.
pub(crate) fn first_items(
    expr: &Expr,
    transcript: &Transcript,
    k: u32,
    items: Vec<Item>,
) -> Vec<Item>
    requires lists { transcript.now.lists ≡ list_count expr.now }
    requires empty { items.items ≡ [] }
    requires room { length (seen_objects transcript.now.accesses) ≤ vec_capacity items }
    ensures { result.items ≡ first_k k (map (valued (value expr.now) transcript.now.lists transcript.now.accesses) (seen_objects transcript.now.accesses)) }
{
    let mut items = items;
    collect(expr, transcript, &mut items);
    let mut first = ranked(items);
    first.truncate(k as usize);
    first
}
