//! What topk claims, over whole tables and transcripts: the definitions, and the laws above them.
//!
//! Beside them rows are put in the order of a ranked list.
#![tactic(auto)]

mod access;
mod laws_adversary;
mod laws_combined;
mod laws_no_random;
mod laws_threshold;
mod laws_transcript;
mod row_order;

pub use access::Access;
pub use laws_adversary::{
    bounds_are_reached_in_one_table, completes_in_order, completes_with_any_choice,
    fixes_where_the_bounds_part, some_table_agrees_over_each_set,
};
pub use laws_combined::{
    answers_a_top_k_by_aggregate, asks_for_seen_objects, chooses_one_object, ends_within_the_table,
    makes_exactly_one_run, reads_and_asks_the_table,
};
pub use laws_no_random::{
    answers_a_top_k_by_bounds, asks_for_no_grade, bounds_hold, is_quiet_at_the_least_depth,
    reads_the_table_in_order,
};
pub use laws_threshold::{
    answers_a_top_k, guesses_nothing, reads_the_table, sees_its_answer, stops_at_the_least_depth,
};
pub use laws_transcript::{
    each_kind_excludes_every_table, no_kind_leaves_a_table,
    some_table_agrees_where_no_access_is_at_fault, tables_agree_access_by_access,
    the_first_kind_is_one, what_is_drawn_stays_drawn, what_is_known_is_true,
};
pub use row_order::sort_by_grade;
