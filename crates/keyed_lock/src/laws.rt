//! What the words of the contracts mean: a law on parts.
ghost use Rattle.std.specs.Prelude.{◌≡◌, ◌≤◌, ◌-◌, ℕ};
ghost use Rattle.keyed_lock.specs.declared.hold.Hold.{Hold};
ghost use Rattle.keyed_lock.specs.Hold.{with_parts, joined};

/// What is split off is taken away, and a join brings it back.
pub fn parts_add_up<K>()
    ensures { (hold : Hold K) (parts : ℕ) → parts ≤ hold.parts → (joined (with_parts (hold.parts - parts) hold) (with_parts parts hold)).parts ≡ hold.parts }
{}
