//! The judge of an answer.

ghost use Rattle.std.specs.Prelude.{◌≡◌, ◌<◌, ◌^◌, length};
ghost use Rattle.monotone_fn.specs.Shape.{list_count};
ghost use Rattle.monotone_fn.specs.Value.{value};
ghost use Rattle.topk_theory.specs.Transcript.{IsTame};
ghost use Rattle.access_log.specs.Log.{IsConsistent};
ghost use Rattle.cert_judge.specs.Deciding.{Judges, IsSized};
ghost use Rattle.cert_judge.specs.JudgingWithin.{JudgesWithin};
ghost use Rattle.cert_judge.specs.Verdicts.{verdict_within};

use super::bound::Bound;
use super::extremes::{greatest_high, least_low};
use super::objects::Objects;
use super::question::{first_unseen, first_wild_guess, sized_objects};
use super::verdict::{JudgeFault, Verdict};
use access_log::Transcript;
use monotone_fn::Expr;
use std::alloc::Global;

/// The verdict within a factor `p / q`, where these are the least low of the answer and the greatest high outside it.
fn verdict_within(p: u64, q: u64, inside: Option<Bound>, outside: Option<Bound>) -> Verdict
    ensures { result ≡ verdict_within (record { p = p; q = q }) inside outside }
{
    let (Some(inside), Some(outside)) = (inside, outside) else {
        return Verdict::Fixes;
    };
    let least = u128::from(p) * u128::from(inside.value);
    let greatest = u128::from(q) * u128::from(outside.value);
    if greatest <= least {
        return Verdict::Fixes;
    }
    Verdict::Beaten {
        inside: inside.object,
        outside: outside.object,
        low: inside.value,
        high: outside.value,
    }
}

/// What is told of an answer whose size is right and of a tame transcript.
fn judge_seen(
    transcript: &Transcript,
    expr: &Expr,
    k: u32,
    answer: &[u32],
    objects: &Objects,
    p: u64,
    q: u64,
) -> Result<Verdict, JudgeFault>
    requires lists { list_count expr.now ≡ transcript.now.lists }
    requires tame { IsTame transcript.now.accesses }
    requires sized { IsSized k answer.now }
    requires kept { objects.now ≡ answer.now }
    requires agrees { IsConsistent transcript.now }
    ensures { JudgesWithin (value expr.now) k (record { p = p; q = q }) transcript.now answer.now result }
{
    if let Some(object) = first_unseen(transcript, answer) {
        return Err(JudgeFault::UnseenAnswer { object });
    }
    let inside = least_low(transcript, expr, answer);
    let outside = greatest_high(transcript, expr, objects);
    Ok(verdict_within(p, q, inside, outside))
}

/// Whether a transcript fixes that an answer of `k` objects is within a factor `p / q` of the best, or what beats it by more.
///
/// It fixes it where on every table that agrees with the transcript, over every set of objects that has the
/// seen ones, `q` times the aggregate of an object outside the answer is at most `p` times that of one inside. The
/// products are exact. The expression has the transcript's number of lists. Refused are, in this order, a transcript
/// with a random access of an object that no earlier sorted access gave (`WildGuess`), an answer that isn't `k` distinct
/// objects (`WrongSize`), and one with an object that no sorted access gave (`UnseenAnswer`).
///
/// *Cost*: a look-up for each access, each object of the answer and each seen object, and two bounds of the expression
/// for each seen object, each linear in the lists and the nodes of the expression.
pub fn judge_within(
    alloc: Global,
    transcript: &Transcript,
    expr: &Expr,
    k: u32,
    answer: &[u32],
    p: u64,
    q: u64,
) -> Result<Verdict, JudgeFault>
    requires lists { list_count expr.now ≡ transcript.now.lists }
    requires size { length answer.now < 2 ^ 32 }
    ensures { JudgesWithin (value expr.now) k (record { p = p; q = q }) transcript.now answer.now result }
{
    if let Some(at) = first_wild_guess(transcript) {
        return Err(JudgeFault::WildGuess { at });
    }
    let objects = match sized_objects(alloc, answer, k) {
        Ok(objects) => objects,
        Err(fault) => return Err(fault),
    };
    let verdict = judge_seen(transcript, expr, k, answer, &objects, p, q);
    drop(objects);
    verdict
}

/// Whether a transcript fixes an answer of `k` objects, or what beats it: `judge_within` at the factor 1.
///
/// It fixes it where on every table that agrees with the transcript, over every set of objects that has the
/// seen ones, none outside the answer has a greater aggregate than one inside.
pub fn judge(
    alloc: Global,
    transcript: &Transcript,
    expr: &Expr,
    k: u32,
    answer: &[u32],
) -> Result<Verdict, JudgeFault>
    requires lists { list_count expr.now ≡ transcript.now.lists }
    requires size { length answer.now < 2 ^ 32 }
    ensures { Judges (value expr.now) k transcript.now answer.now result }
{
    judge_within(alloc, transcript, expr, k, answer, 1, 1)
}
