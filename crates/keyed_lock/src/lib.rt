//! Values that threads take and give one at a time, each of which keeps a stated fact with a key that was fixed when the lock was opened.
#![tactic(auto)]

mod filling;
mod handles;
mod hold;
mod laws;
mod lock;
mod lock_invariant;
mod pass;
mod rule;
mod seat;
mod view;

pub use handles::WorkerHandle;
pub use hold::Hold;
pub use laws::parts_add_up;
pub use lock::KeyedLock;
pub use lock_invariant::LockInvariant;
pub use pass::Pass;
