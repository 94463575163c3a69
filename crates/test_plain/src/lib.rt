//! The algorithms on whole tables, read off their definitions: slow, for tests to compare with.
#![tactic(auto)]

mod blocks;
mod bounds;
mod combined;
mod each_once;
mod fagin;
mod no_random;
mod order;
mod phases;
mod table;
mod threshold;

pub use blocks::{add_sorted_block, ta_run};
pub use bounds::{high, known_grade, low, seen_objects};
pub use combined::{ca_answer, ca_depth, ca_run};
pub use each_once::add_object;
pub use fagin::{fa_answer, fa_depth, fa_run};
pub use no_random::{
    exceeds, first_seen, is_quiet, kth_low, nra_answer, nra_depth, nra_run, nra_run_to,
};
pub use order::{first_k, kth_low_of};
pub use phases::add_missing_grades;
pub use table::{aggregate, count_of, grade_in, objects_of, place_in};
pub use threshold::{items_of, ta_answer, ta_depth};
pub use topk_base::Memory;
