//! What queries share: of each source the one state behind its lock, looked at through passes, and fed by the one feeder of the source.
//!
//! What a pass holds of one source is a `Hold`: a look through it takes one turn of that source's lock, or is answered by what
//! the pass remembers of earlier ones. A pass is opened, split and joined source by source.
#![tactic(auto)]

mod closing;
mod feeder;
mod grades;
mod hold;
mod hold_sharing;
mod laws;
mod lock_opening;
mod look;
mod opening;
mod pool;
mod pool_pass;
mod remembered;
mod sharing;
mod window;

pub use closing::close_all;
pub use feeder::Feeder;
pub use grades::{Grades, MOST_GRADES};
pub use hold::{Hold, NO_FAILS, NO_WAITING};
pub use hold_sharing::{join_one, split_one};
pub use laws::a_log_says_what_it_has;
pub use lock_opening::open_lock;
pub use look::look_once;
pub use opening::{OpenedLocks, open_all};
pub use pool::Pool;
pub use pool_pass::PoolPass;
pub use remembered::Remembered;
pub use sharing::{join_all, split_all};
pub use source_state::Memory;
use source_state::SourceState;
use topk_base::Seq32;
pub use window::{WINDOW_ROWS, Window};

/// The states of sources, in the order of their numbers.
pub type States = Seq32<SourceState>;

/// The feeders of sources, in the order of their numbers.
pub type Feeders = Seq32<Feeder>;
