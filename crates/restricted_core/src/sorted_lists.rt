//! The lists that can be read in order.

ghost use Rattle.std.specs.Prelude.{◌≤◌, length, MatchOption};
ghost use Rattle.restricted_core.specs.Lists.{IsNextList, NoneBetween};

/// The first list from one on that can be read in order; None where there is none.
pub(crate) fn next_sorted(sorted: &[bool], from: u8) -> Option<u8>
    requires { length sorted.now ≤ 255 }
    ensures { MatchOption result (NoneBetween sorted.now from (length sorted.now)) (IsNextList sorted.now from) }
{
    for list in from..sorted.len() as u8 {
        if sorted[list as usize] {
            return Some(list);
        }
    }
    None
}
