//! What the words of the contracts mean: laws on turns and on joins.
ghost use Rattle.std.specs.Prelude.{◌≡◌, ◌≤◌, ◌⊎◌, ◌++◌, ℕ, List, length};
ghost use Rattle.turn_lock.specs.declared.facts.Facts.{Facts};
ghost use Rattle.turn_lock.specs.declared.known.Known.{Known};
ghost use Rattle.turn_lock.specs.Facts.{IsFrontOf};
ghost use Rattle.turn_lock.specs.Known.{new_asks, after_turn, without, split_off, joined, longer};

/// The highest mark that a pass set never falls in a turn, and never passes the value's mark.
pub fn a_turn_never_lowers_high<E>()
    ensures { (taken given : Facts E) (pass : Known E) → pass.high ≤ taken.mark → taken.mark ≤ given.mark
        → (pass.high ≤ (after_turn taken given pass).high) × ((after_turn taken given pass).high ≤ given.mark) }
{}

/// The asks that a turn leaves are those that it found, and then those that it added.
pub fn a_turn_adds_its_asks<E>()
    ensures { (taken given : Facts E) → IsFrontOf taken.asks given.asks → given.asks ≡ taken.asks ++ new_asks taken given }
{}

/// Of two lists the longer one is one of the two, and neither is longer than it.
pub fn the_longer_list_is_kept<E>()
    ensures { (xs ys : List E) → ((longer xs ys ≡ xs) ⊎ (longer xs ys ≡ ys))
        × (length xs ≤ length (longer xs ys)) × (length ys ≤ length (longer xs ys)) }
{}

/// What is split off is taken away, and a join brings it back.
pub fn parts_add_up<E>()
    ensures { (pass : Known E) (parts : ℕ) → parts ≤ pass.parts → (joined (without parts pass) (split_off parts pass)).parts ≡ pass.parts }
{}
