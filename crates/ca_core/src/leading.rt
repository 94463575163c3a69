//! Which of two objects stands first: by high falling, then by number rising.

ghost use Rattle.std.specs.Prelude.{◌≡◌, ◌⊎◌, ℕ, true, false, Some};
ghost use Rattle.ca_core.specs.Leading.{LeadsOver};

use super::kept_high::KeptHigh;

/// Whether one stands before the other.
pub(crate) fn stands_before(one: KeptHigh, other: KeptHigh) -> bool
    ensures before { result ≡ true → LeadsOver (Some one) other.high other.object }
    ensures behind { result ≡ false → LeadsOver (Some other) one.high one.object }
{
    if one.high != other.high {
        return one.high > other.high;
    }
    one.object < other.object
}

/// That of two which stands first, if there is one.
pub(crate) fn first_of(one: Option<KeptHigh>, other: Option<KeptHigh>) -> Option<KeptHigh>
    ensures one { (high object : ℕ) → LeadsOver one high object → LeadsOver result high object }
    ensures other { (high object : ℕ) → LeadsOver other high object → LeadsOver result high object }
    ensures either { (result ≡ one) ⊎ (result ≡ other) }
{
    let Some(first) = one else {
        return other;
    };
    let Some(second) = other else {
        return one;
    };
    if stands_before(second, first) {
        other
    } else {
        one
    }
}
