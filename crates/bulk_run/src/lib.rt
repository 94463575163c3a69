//! The command `bulk`: many made queries over one made table, whose lists are sources, each in a slot.
//!
//! They are the same queries and the same rows wherever they are run, and what is written is one line of sums over their answers.
#![tactic(auto)]

mod bulking;
mod input;
mod made_source;
mod readies;
mod run;
mod slots;
mod sums;
mod writing;

pub use bulking::bulk;
pub use input::BulkInput;
pub use made_source::MadeSource;
pub use run::{run_bulk, run_over};
pub use slots::{let_go, table_slots};
pub use sums::BulkSums;
pub use topk_base::Memory;
pub use writing::write_sums;
