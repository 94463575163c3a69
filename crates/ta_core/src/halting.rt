//! When a threshold machine halts.

ghost use Rattle.std.specs.Prelude.{◌≡◌};
ghost use Rattle.ta_core.specs.Halting.{passes_by};

/// When a machine halts: at the first depth at whose end at least k of the seen objects pass, by their aggregates.
#[derive(Clone, Copy)]
pub enum Halting {
    /// An aggregate passes that is at least the threshold.
    Exact,
    /// An aggregate passes that is at least the threshold within a factor: `p` times it is at least `q` times the threshold.
    Within { p: u32, q: u32 },
    /// An aggregate passes that is at least the threshold, and from this depth on each.
    Early { depth: u32 },
}

impl Halting {
    /// Whether an object passes at a depth.
    pub(crate) fn passes(self, depth: u32, threshold: u64, aggregate: u64) -> bool
        ensures { result ≡ passes_by self depth threshold aggregate }
    {
        match self {
            Halting::Exact => threshold <= aggregate,
            Halting::Within { p, q } => {
                u128::from(q) * u128::from(threshold) <= u128::from(p) * u128::from(aggregate)
            }
            Halting::Early { depth: from } => from <= depth || threshold <= aggregate,
        }
    }
}
