//! Whether a question is fair: the transcript is tame, and the answer is so many distinct objects, all of them seen.

ghost use Rattle.std.specs.Prelude.{◌≡◌, ◌≢◌, ◌+◌, ◌<◌, ◌^◌, ℕ, length, All, AllPairs, Contains, IfOk, MatchOption};
ghost use Rattle.topk_theory.specs.Transcript.{IsTame, seen_objects};
ghost use Rattle.access_log.specs.Log.{IsConsistent};
ghost use Rattle.cert_judge.specs.Deciding.{IsFirstWildGuess, IsFirstUnseen};
ghost use Rattle.cert_judge.specs.Question.{seen_after, HasSize};

use super::Memory;
use super::objects::Objects;
use super::verdict::JudgeFault;
use access_log::Transcript;
use std::alloc::Global;

/// How many objects are seen after an access of an object, None where it is a wild guess. `sight` is the
/// object's place in the order of first sight of the whole transcript, `seen` the number of objects that
/// are seen before it.
fn seen_after(sight: Option<u32>, seen: u64, is_sorted: bool) -> Option<u64>
    requires { seen + 1 < 2 ^ 64 }
    ensures { result ≡ seen_after sight seen is_sorted }
{
    let Some(place) = sight else {
        return None;
    };
    if u64::from(place) < seen {
        return Some(seen);
    }
    if is_sorted { Some(seen + 1) } else { None }
}

/// The number, from 1, of the first wild guess, None where the transcript is tame.
pub(crate) fn first_wild_guess(transcript: &Transcript) -> Option<u64>
    ensures guess { MatchOption result (IsTame transcript.now.accesses) (IsFirstWildGuess transcript.now.accesses) }
    ensures agrees { IsConsistent transcript.now }
{
    let mut seen = 0;
    for (place, access) in transcript.iter().enumerate() {
        let sight = transcript.sight_of(access.object());
        let Some(after) = seen_after(sight, seen, access.is_sorted()) else {
            return Some(place as u64 + 1);
        };
        seen = after;
    }
    None
}

/// The objects of a list, None where one comes twice.
fn distinct_objects(alloc: Global, answer: &[u32]) -> Result<Option<Objects>, Memory>
    ensures { IfOk result (λ objects. MatchOption objects (¬ AllPairs (λ (y : ℕ) (z : ℕ). y ≢ z) answer.now)
        (λ kept. (kept ≡ answer.now) × AllPairs (λ (y : ℕ) (z : ℕ). y ≢ z) answer.now)) }
{
    let mut objects = Objects::make(alloc);
    for object in answer {
        let is_new = match objects.add(*object) {
            Ok(is_new) => is_new,
            Err(fault) => {
                drop(objects);
                return Err(fault);
            }
        };
        if !is_new {
            drop(objects);
            return Ok(None);
        }
    }
    Ok(Some(objects))
}

/// The objects of an answer of `k` distinct ones.
pub(crate) fn sized_objects(alloc: Global, answer: &[u32], k: u32) -> Result<Objects, JudgeFault>
    requires { length answer.now < 2 ^ 32 }
    ensures { HasSize k answer.now result }
{
    let given = answer.len() as u32;
    let wrong = JudgeFault::WrongSize { given, k };
    if given != k {
        return Err(wrong);
    }
    match distinct_objects(alloc, answer) {
        Ok(Some(objects)) => Ok(objects),
        Ok(None) => Err(wrong),
        Err(_) => Err(JudgeFault::Memory),
    }
}

/// The first object of an answer that no sorted access gave.
pub(crate) fn first_unseen(transcript: &Transcript, answer: &[u32]) -> Option<u32>
    ensures { MatchOption result (All (Contains (seen_objects transcript.now.accesses)) answer.now)
        (λ object. IsFirstUnseen transcript.now.accesses answer.now object) }
{
    for object in answer {
        if !transcript.is_seen(*object) {
            return Some(*object);
        }
    }
    None
}
