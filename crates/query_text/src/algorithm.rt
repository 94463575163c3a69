//! The algorithms that a query may name.

ghost use Rattle.std.specs.Prelude.{◌≡◌};
ghost use Rattle.query_text.specs.Shape.{algorithm_word};

/// An algorithm of Fagin, Lotem and Naor.
#[derive(Clone, Copy, PartialEq, Eq)]
pub enum Algorithm {
    /// The threshold algorithm, `ta`.
    Ta,
    /// The algorithm without random access, `nra`.
    Nra,
    /// The combined algorithm, `ca`.
    Ca,
    /// Fagin's algorithm, `fa`.
    Fa,
    /// The threshold algorithm that stops within the factor p / q, `theta p/q`. In a lawful query
    /// both numbers are 1 to 1,000,000, and p is at least q.
    Theta { p: u32, q: u32 },
    /// The threshold algorithm that stops at a depth at the latest, `early depth`: 1 to 1,000,000.
    Early { depth: u32 },
    /// The threshold algorithm that reads the lists with sorted access alone in order, `taz`.
    Taz,
}

impl Algorithm {
    /// The word that names it in a query, with the blank before its numbers, if it has any.
    pub fn word(self) -> &'static [u8]
        ensures { result.now ≡ algorithm_word self }
    {
        match self {
            Algorithm::Ta => b"ta",
            Algorithm::Nra => b"nra",
            Algorithm::Ca => b"ca",
            Algorithm::Fa => b"fa",
            Algorithm::Theta { .. } => b"theta ",
            Algorithm::Early { .. } => b"early ",
            Algorithm::Taz => b"taz",
        }
    }
}
