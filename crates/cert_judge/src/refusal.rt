//! The line by which a text is refused.

ghost use Rattle.cert_judge.specs.Refusing.{RefusesBy};

use super::judgement::Judgement;

/// The line of a refusal: its name, and its one field or its two.
#[derive(Clone, Copy)]
pub(crate) enum RefusalLine {
    One(&'static [u8], [u64; 1]),
    Two(&'static [u8], [u64; 2]),
}

/// The line by which a text is refused, or None where it is judged.
pub(crate) fn refusal_of(told: &Judgement) -> Option<RefusalLine>
    ensures { RefusesBy told.now result }
{
    match told {
        Judgement::BadLine { line } => Some(RefusalLine::One(b"BadLine", [*line])),
        Judgement::Inconsistent { at, kind } => {
            Some(RefusalLine::Two(b"Inconsistent", [*at, u64::from(*kind)]))
        }
        Judgement::WildGuess { at } => Some(RefusalLine::One(b"WildGuess", [*at])),
        Judgement::WrongSize { given, k } => Some(RefusalLine::Two(
            b"WrongSize",
            [u64::from(*given), u64::from(*k)],
        )),
        Judgement::UnseenAnswer { object } => {
            Some(RefusalLine::One(b"UnseenAnswer", [u64::from(*object)]))
        }
        Judgement::Figure { line } => Some(RefusalLine::One(b"Figure", [*line])),
        Judgement::Fixes | Judgement::Beaten { .. } => None,
    }
}
