//! Tables and queries that are made from a number, the same ones wherever they are made.
//!
//! Queries are over lists named `l1`, `l2` and so on.
#![tactic(auto)]

mod expression;
mod generator;
mod query;
mod table;

pub use query::made_query;
pub use table::make_table;
pub use topk_base::Memory;
