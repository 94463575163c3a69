//! Transcripts: the accesses of a query in their order, which some table always agrees with.
//!
//! Beside the accesses a transcript keeps the objects that they name, each with its record, how far the lists are read, and the
//! grades that are known ahead of them, so that no call scans the accesses. These tell the first kind of inconsistency of one
//! access more.
#![tactic(auto)]

mod ahead;
mod ends;
mod fault;
mod inconsistency;
mod kinds;
mod objects;
mod record;
mod room;
mod transcript;

pub use ahead::Ahead;
pub use ends::Ends;
pub use fault::PushFault;
pub use inconsistency::first_kind;
pub use kinds::Known;
pub use objects::Objects;
pub use ranked_list::{Item, Items};
pub use record::Record;
pub use topk_base::Memory;
pub use topk_theory::Access;
pub use transcript::Transcript;
