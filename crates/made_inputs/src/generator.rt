//! The generator of grades.

ghost use Rattle.std.specs.Prelude.{◌≡◌};
ghost use Rattle.made_inputs.specs.Made.{next_state, grade_of};

use topk_base::TOP_GRADE;

/// What a state is multiplied with, and what is added then. Both are Knuth's, of MMIX.
const MULTIPLIER: u64 = 6_364_136_223_846_793_005;

const INCREMENT: u64 = 1_442_695_040_888_963_407;

/// A linear congruential generator modulo 2^64, whose grades are taken from the upper half of its state.
#[derive(Debug, Drop)]
pub(crate) struct Generator {
    state: u64,
}

impl Generator {
    /// The generator with this state.
    pub(crate) fn from_state(state: u64) -> Generator
        ensures { result.state ≡ state }
    {
        Generator { state }
    }

    /// Goes one step, and gives the grade of the new state, 0 to 1,000,000.
    pub(crate) fn next_grade(&mut self) -> u32
        ensures steps { self.new.state ≡ next_state self.old.state }
        ensures gives { result ≡ grade_of self.new.state }
    {
        self.state = self.state.wrapping_mul(MULTIPLIER).wrapping_add(INCREMENT);
        ((self.state >> 33) % (u64::from(TOP_GRADE) + 1)) as u32
    }
}
