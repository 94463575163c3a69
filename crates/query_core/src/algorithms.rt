//! What differs from algorithm to algorithm.

ghost use Rattle.std.specs.Prelude.{◌≡◌};
ghost use Rattle.query_core.specs.Algorithms.{asks_grades};

use query_text::Algorithm;

/// Whether an algorithm makes random accesses, so that each of its lists has to offer them.
pub fn asks_grades(algorithm: Algorithm) -> bool
    ensures { result ≡ asks_grades algorithm }
{
    match algorithm {
        Algorithm::Ta => true,
        Algorithm::Nra => false,
        Algorithm::Ca => true,
        Algorithm::Fa => true,
        Algorithm::Theta { p: _, q: _ } => true,
        Algorithm::Early { depth: _ } => true,
        Algorithm::Taz => true,
    }
}
