//! The top call: words and an input in, one text and a status out; and what follows from its contract.
//!
//! The laws follow from the contracts of the commands alone, by which each top call ends, for every input, whatever sources it reads.
//!
//! Those on runs over a catalog say which outcomes lines have where the sources tell tables, what stands behind refusals, and how much the
//! sources give. In a further one a node and a source over its host meet: what the source reads is what the node's list tells.
#![tactic(auto)]

mod call;
mod laws;
mod laws_catalog;
mod laws_run;
mod node_law;
mod process;

pub use call::top;
pub use command_line::{Status, Words, WordsFault, read_words};
pub use laws::{answers_are_fixed, counters_are_bundles, limits_are_stated};
pub use laws_catalog::{
    answers_over_told_tables_are_the_one, cut_runs_give_what_is_asked, failed_lists_have_causes,
    failures_refuse_few_lines, outcomes_are_right, sources_give_what_is_asked,
    told_tables_give_the_one_outcome,
};
pub use laws_run::{
    cut_runs_are_sparing, replies_are_sparing, settings_change_nothing,
    told_runs_write_the_one_text, wrong_catalogs_are_refused,
};
pub use node_law::a_node_is_read_back;
pub use process::run_process;
