//! Which algorithms guarantee a factor, and which one.

ghost use Rattle.std.specs.Prelude.{◌≡◌};
ghost use Rattle.std.specs.Option.{option_map};
ghost use Rattle.monotone_fn.specs.Shape.{list_count};
ghost use Rattle.monotone_fn.specs.Value.{value};
ghost use Rattle.topk_theory.specs.Threshold.{item_objects};
ghost use Rattle.cert_text.specs.Guarantee.{factor_of, has_guarantee, guarantee_by};

use super::early::early_guarantee;
use super::factor::Guarantee;
use access_log::Transcript;
use monotone_fn::Expr;
use query_text::Algorithm;
use ranked_list::Item;

/// Whether an algorithm's answers come with a factor: those of `theta` and `early` do.
pub fn has_guarantee(algorithm: Algorithm) -> bool
    ensures { result ≡ has_guarantee algorithm }
{
    match algorithm {
        Algorithm::Theta { .. } | Algorithm::Early { .. } => true,
        Algorithm::Ta | Algorithm::Nra | Algorithm::Ca | Algorithm::Fa | Algorithm::Taz => false,
    }
}

/// What an algorithm guarantees of its answer, by the transcript: the factor of `theta`, what the transcript of `early`
/// shows (`early_guarantee`), and None for the others, which answer the best.
///
/// *Cost*: that of `early_guarantee`.
pub fn guarantee(
    algorithm: Algorithm,
    transcript: &Transcript,
    expr: &Expr,
    items: &[Item],
) -> Option<Guarantee>
    requires { list_count expr.now ≡ transcript.now.lists }
    ensures { option_map factor_of result
        ≡ guarantee_by algorithm (value expr.now) transcript.now.lists transcript.now.accesses (item_objects items.now) }
{
    match algorithm {
        Algorithm::Theta { p, q } => Some(Guarantee {
            p: u64::from(p),
            q: u64::from(q),
        }),
        Algorithm::Early { .. } => Some(early_guarantee(transcript, expr, items)),
        Algorithm::Ta | Algorithm::Nra | Algorithm::Ca | Algorithm::Fa | Algorithm::Taz => None,
    }
}
