ghost use Rattle.std.specs.Prelude.{◌≡◌, length};
ghost use Rattle.turn_lock.specs.declared.facts.Facts.{Facts};

/// A value with a log. What a turn may do to it is `Grows` of its facts before and after, and for a turn that isn't
/// the writer's also `IsKept`.
pub trait Logged {
    /// An entry of the log.
    type Entry;

    /// What the lock remembers of a value.
    ghost facts: { Self → Facts Self.Entry };

    /// The number of entries of the log, which is below 2^64.
    fn length(&self) -> u64
        ensures { result ≡ length (facts self.now).log };
}
