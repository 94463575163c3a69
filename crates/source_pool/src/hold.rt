//! What a pass holds of one source.

use super::remembered::Remembered;
use source_state::{SourceState, Tally, Waiting};
use turn_lock::Pass;

/// Nothing counted.
pub const NO_FAILS: Tally = Tally {
    failed: 0,
    garbled: 0,
    memory: 0,
};

/// Nothing waited for.
pub const NO_WAITING: Waiting = Waiting {
    need: None,
    noted: NO_FAILS,
};

/// What a pass holds of one source.
#[derive(Drop)]
pub struct Hold {
    /// A pass of the source's lock.
    pub pass: Pass<SourceState>,
    /// What is waited for, and the tally that was noted when the waiting began.
    pub waiting: Waiting,
    /// How many looks told a fail of each kind. A count stands still at its last number.
    pub shown: Tally,
    /// What the pass remembers of the source.
    pub remembered: Remembered,
}
