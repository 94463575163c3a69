//! Within which factor of the best the answer of an early stop is.

ghost use Rattle.std.specs.Prelude.{◌≡◌};
ghost use Rattle.monotone_fn.specs.Shape.{list_count};
ghost use Rattle.monotone_fn.specs.Value.{value};
ghost use Rattle.topk_theory.specs.Bounds.{threshold};
ghost use Rattle.topk_theory.specs.Threshold.{item_objects};
ghost use Rattle.algorithm_theory.specs.Guarantee.{factor_over, least_low, early_guarantee};
ghost use Rattle.cert_text.specs.Guarantee.{factor_of};
ghost use Rattle.cert_text.specs.Lows.{lesser};

use super::factor::Guarantee;
use access_log::Transcript;
use monotone_fn::Expr;
use ranked_list::Item;

/// The lesser of a number and the least so far, if there is one.
fn lesser(least: Option<u64>, number: u64) -> u64
    ensures { result ≡ lesser least number }
{
    match least {
        Some(least) => least.min(number),
        None => number,
    }
}

/// The least low of the objects of items, 0 where there are none.
fn least_low(transcript: &Transcript, expr: &Expr, items: &[Item]) -> u64
    requires { list_count expr.now ≡ transcript.now.lists }
    ensures { result ≡ least_low (value expr.now) transcript.now.lists transcript.now.accesses (item_objects items.now) }
{
    let mut least = None;
    for item in items {
        let number = transcript.low(expr, item.object);
        least = Some(lesser(least, number));
    }
    least.unwrap_or(0)
}

/// The value at the bottoms of the lists.
fn threshold(transcript: &Transcript, expr: &Expr) -> u64
    requires { list_count expr.now ≡ transcript.now.lists }
    ensures { result ≡ threshold (value expr.now) transcript.now.lists transcript.now.accesses }
{
    expr.eval(transcript.bottoms())
}

/// A threshold over the least aggregate: 1 where it is reached, and nothing where the least is 0.
fn factor_over(bound: u64, least: u64) -> Guarantee
    ensures { factor_of result ≡ factor_over bound least }
{
    if bound <= least {
        return Guarantee { p: 1, q: 1 };
    }
    if least == 0 {
        return Guarantee { p: 1, q: 0 };
    }
    Guarantee { p: bound, q: least }
}

/// What the transcript of an early stop guarantees of its answer, which has at least one item: the value at the bottoms
/// over the least low of the items' objects. Where that low is 0 nothing is guaranteed; else it is at least 1.
///
/// *Cost*: an evaluation of the expression, and a look-up and an evaluation for each item.
pub fn early_guarantee(transcript: &Transcript, expr: &Expr, items: &[Item]) -> Guarantee
    requires { list_count expr.now ≡ transcript.now.lists }
    ensures { factor_of result
        ≡ early_guarantee (value expr.now) transcript.now.lists transcript.now.accesses (item_objects items.now) }
{
    let bound = threshold(transcript, expr);
    let least = least_low(transcript, expr, items);
    factor_over(bound, least)
}
