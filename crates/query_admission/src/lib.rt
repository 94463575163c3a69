//! What a query line comes to over lists by name: the first of its refusals, or a query to run.
#![tactic(auto)]

mod admission;
mod admitted;
mod line_outcome;
mod lists;
mod reading;
mod screen;
mod seek;

pub use admission::{admit, admit_read};
pub use admitted::Admitted;
pub use line_outcome::LineOutcome;
pub use lists::{ListInfo, Lists};
pub use query_core::Ready;
pub use reading::{ReadLine, read_line};
pub use topk_base::Memory;
