//! What is told of a certificate: that it fixes its answer, a counterexample, or why it is refused.
//!
//! A certificate that says within which factor of the best its answer is is judged within that.
//!
//! ```text
//! fixes
//! beaten inside OBJECT low LOW outside OBJECT high HIGH     then a bundle: the counterexample, and the query
//! refused NAME FIELDS                                       one line
//! ```
//!
//! A transcript fixes an answer where this is right on every table that agrees with it. Where it doesn't there is a table on which the answer is
//! beaten: an object of the answer has its low there, and every other object its high.
#![tactic(auto)]

mod beating;
mod bound;
mod counter;
mod decision;
mod extremes;
mod figures;
mod judgement;
mod judging;
mod objects;
mod question;
mod refusal;
mod transcript;
mod verdict;
mod writing;

pub use beating::counter_table;
pub use decision::{judge, judge_within};
pub use judgement::Judgement;
pub use judging::judge_text;
pub use objects::Objects;
pub use topk_base::Memory;
pub use verdict::{JudgeFault, Verdict};
pub use writing::write_told;
