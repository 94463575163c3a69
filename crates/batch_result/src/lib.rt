//! What a batch of queries gives, over sources that all of them read: how each query ended, and what was used of each source.
//!
//! What a batch promises is said here (`IsBatch`), and what follows where the sources tell lists that form tables.
#![tactic(auto)]

mod batch;
mod laws;

pub use batch::{Batch, Use};
pub use laws::{
    answers_bound_the_uses, lists_out_of_order_give_no_row, queries_are_on_their_runs,
    told_lists_have_their_faults, told_tables_bound_a_cut_batch, told_tables_bound_the_uses,
    told_tables_end_or_fail, told_tables_give_the_one_ending,
};
pub use query_run::Ended;
pub use topk_base::Settings;
