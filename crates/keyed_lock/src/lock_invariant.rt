ghost use Rattle.std.specs.Prelude.{ℕ};

/// A value that keeps a fact with a key and with its place, whoever changes it.
pub trait LockInvariant {
    /// What the fact compares the value with. A lock has one key for all its values, fixed when it is opened.
    type Key;

    /// The fact, of the key, the place and the value: who gives a value back owes it, and who takes the value may rely on it.
    ghost keeps: { Self.Key → ℕ → Self → Type 0 };
}
