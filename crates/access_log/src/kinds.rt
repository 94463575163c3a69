//! The tests of one access more, in the order of the kinds of inconsistency.

ghost use Rattle.std.specs.Prelude.{◌≡◌, nat_lt};
ghost use Rattle.access_log.specs.Tests.{differs, exceeds, first_of_sorted, first_of_random};

/// The number of the kind: there is no list of this number.
pub(crate) const NO_SUCH_LIST: u8 = 1;

/// The number of the kind: the grade is above the greatest.
pub(crate) const ABOVE_TOP: u8 = 2;

/// The number of the kind: the object is one more than the lists have.
pub(crate) const TOO_MANY_OBJECTS: u8 = 3;

const RISES: u8 = 4;

const REPEATS: u8 = 5;

const CLASHES: u8 = 6;

const FALLS_SHORT: u8 = 7;

const ABOVE_BOTTOM: u8 = 8;

/// What is known of an object in a list: its grade, and whether a sorted access gave it.
#[derive(Clone, Copy)]
pub struct Known {
    /// Its grade, where that is known.
    pub grade: Option<u32>,
    /// Whether a sorted access of the list gave it.
    pub read: bool,
}

/// Whether a grade is known, and is another one.
fn differs(known: Option<u32>, grade: u32) -> bool
    ensures { result ≡ differs known grade }
{
    match known {
        Some(other) => other != grade,
        None => false,
    }
}

/// Whether there is a greatest grade, and it is above this one.
fn exceeds(greatest: Option<u32>, grade: u32) -> bool
    ensures { result ≡ exceeds greatest grade }
{
    match greatest {
        Some(other) => grade < other,
        None => false,
    }
}

/// The number of the first kind of a sorted access, from the fourth on. `ahead` is the greatest grade
/// of an object that the list hasn't given yet.
pub(crate) fn first_of_sorted(
    bottom: u32,
    known: Known,
    ahead: Option<u32>,
    grade: u32,
) -> Option<u8>
    ensures { result ≡ first_of_sorted (nat_lt bottom grade) known.read (differs known.grade grade) (exceeds ahead grade) }
{
    if bottom < grade {
        Some(RISES)
    } else if known.read {
        Some(REPEATS)
    } else if differs(known.grade, grade) {
        Some(CLASHES)
    } else if exceeds(ahead, grade) {
        Some(FALLS_SHORT)
    } else {
        None
    }
}

/// The number of the first kind of a random access, from the fourth on.
pub(crate) fn first_of_random(bottom: u32, known: Known, grade: u32) -> Option<u8>
    ensures { result ≡ first_of_random (differs known.grade grade) known.read (nat_lt bottom grade) }
{
    if differs(known.grade, grade) {
        Some(CLASHES)
    } else if !known.read && bottom < grade {
        Some(ABOVE_BOTTOM)
    } else {
        None
    }
}
