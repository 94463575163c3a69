//! What is told of an answer.

ghost use Rattle.std.specs.Prelude.{◌≡◌};
ghost use Rattle.cert_judge.specs.declared.verdict.JudgeFault.{JudgeFault};

use super::Memory;

/// Whether a transcript fixes an answer to a fair question.
#[derive(Clone, Copy, Debug, PartialEq, Eq)]
pub enum Verdict {
    /// On every table that agrees with the transcript, whatever its objects, none outside the answer has a
    /// greater aggregate than one inside.
    Fixes,
    /// On some table `outside` has a greater aggregate than `inside`, which is in the answer: `inside` has its
    /// `low` there, the least of the answer, and `outside` its `high`, the greatest of the other objects.
    Beaten {
        inside: u32,
        outside: u32,
        low: u64,
        high: u64,
    },
}

/// Why an answer isn't judged.
#[derive(Clone, Copy, Debug, PartialEq, Eq)]
pub enum JudgeFault {
    /// The access of this number, from 1, is random, and no earlier sorted access gave its object.
    WildGuess { at: u64 },
    /// The answer has `given` members, and these aren't `k`, or an object comes twice.
    WrongSize { given: u32, k: u32 },
    /// The first object of the answer that no sorted access gave.
    UnseenAnswer { object: u32 },
    /// No memory was left.
    Memory,
}

impl From<Memory> for JudgeFault {
    ghost from_gives = { λ _ fault. fault ≡ JudgeFault.Memory };

    fn from(_: Memory) -> JudgeFault {
        JudgeFault::Memory
    }
}
