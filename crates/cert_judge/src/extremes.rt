//! The object of an answer with the least low, and the object outside with the greatest high.

ghost use Rattle.std.specs.Prelude.{◌≡◌, All, Contains, MatchOption, if◌then◌else◌};
ghost use Rattle.monotone_fn.specs.Shape.{list_count};
ghost use Rattle.monotone_fn.specs.Value.{value};
ghost use Rattle.topk_theory.specs.Transcript.{IsTame, seen_objects};
ghost use Rattle.topk_theory.specs.Bounds.{low, high};
ghost use Rattle.access_log.specs.Log.{IsWithinLimits};
ghost use Rattle.cert_judge.specs.Extremes.{FindsLeast, FindsGreatest};
ghost use Rattle.cert_judge.specs.Deciding.{IsOutside};
ghost use Rattle.cert_judge.specs.Objects.{has};
ghost use Rattle.cert_judge.specs.Outside.{IsOneOutside, HasNoUnseen, IsLeastUnseen, with_high};

use super::bound::{Bound, greater, lesser};
use super::objects::Objects;
use access_log::Transcript;
use monotone_fn::Expr;

/// The object of the answer with the least low; of equal ones the smallest id.
pub(crate) fn least_low(transcript: &Transcript, expr: &Expr, answer: &[u32]) -> Option<Bound>
    requires { list_count expr.now ≡ transcript.now.lists }
    ensures { FindsLeast (λ object. low (value expr.now) transcript.now.lists transcript.now.accesses object) (Contains answer.now) result }
{
    let mut best = None;
    for member in answer {
        let object = *member;
        let value = transcript.low(expr, object);
        best = Some(lesser(best, Bound { object, value }));
    }
    best
}

/// The greater of a bound and an object's high.
fn greater_high(
    transcript: &Transcript,
    expr: &Expr,
    best: Option<Bound>,
    object: u32,
) -> Option<Bound>
    requires { list_count expr.now ≡ transcript.now.lists }
    ensures { result ≡ with_high (value expr.now) transcript.now.lists transcript.now.accesses best object }
{
    let value = transcript.high(expr, object);
    Some(greater(best, Bound { object, value }))
}

/// The greater of a bound and an object's high, unless the object is in the answer.
fn greater_outside(
    transcript: &Transcript,
    expr: &Expr,
    answer: &Objects,
    best: Option<Bound>,
    object: u32,
) -> Option<Bound>
    requires { list_count expr.now ≡ transcript.now.lists }
    ensures { result ≡ (if has object answer.now then best else with_high (value expr.now) transcript.now.lists transcript.now.accesses best object) }
{
    if answer.has(object) {
        return best;
    }
    greater_high(transcript, expr, best, object)
}

/// The seen object outside the answer with the greatest high; of equal ones the smallest id.
fn greatest_seen(transcript: &Transcript, expr: &Expr, answer: &Objects) -> Option<Bound>
    requires { list_count expr.now ≡ transcript.now.lists }
    ensures { FindsGreatest (λ object. high (value expr.now) transcript.now.lists transcript.now.accesses object)
        (IsOneOutside (seen_objects transcript.now.accesses) answer.now) result }
{
    let mut best = None;
    for place in 0..transcript.seen() {
        let object = transcript.object_at(place);
        best = greater_outside(transcript, expr, answer, best, object);
    }
    best
}

/// The smallest id below the count that no sorted access gave, if fewer objects were seen.
fn least_unseen(transcript: &Transcript) -> Option<u32>
    ensures found { MatchOption result (HasNoUnseen transcript.now.accesses transcript.now.count) (IsLeastUnseen transcript.now.accesses transcript.now.count) }
    ensures limits { IsWithinLimits transcript.now.lists transcript.now.count }
{
    let seen = transcript.seen();
    let count = transcript.count();
    if seen >= count {
        return None;
    }
    for object in 0..count {
        if !transcript.is_seen(object) {
            return Some(object);
        }
    }
    None
}

/// The object outside the answer with the greatest high; of equal ones the smallest id. The unseen objects
/// are the smallest ids that the transcript doesn't name.
pub(crate) fn greatest_high(transcript: &Transcript, expr: &Expr, answer: &Objects) -> Option<Bound>
    requires lists { list_count expr.now ≡ transcript.now.lists }
    requires tame { IsTame transcript.now.accesses }
    requires seen { All (Contains (seen_objects transcript.now.accesses)) answer.now }
    ensures found { FindsGreatest (λ object. high (value expr.now) transcript.now.lists transcript.now.accesses object)
        (IsOutside transcript.now answer.now) result }
    ensures limits { IsWithinLimits transcript.now.lists transcript.now.count }
{
    let best = greatest_seen(transcript, expr, answer);
    let Some(object) = least_unseen(transcript) else {
        return best;
    };
    greater_high(transcript, expr, best, object)
}
