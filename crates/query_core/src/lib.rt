//! Queries that are ready to run, the machines that answer them, and what becomes of a machine that is driven over lists.
#![tactic(auto)]

mod algorithms;
mod drive_fault;
mod laws;
mod machine;
mod making;
mod ready;

pub use algorithms::asks_grades;
pub use drive_fault::DriveFault;
pub use laws::right_answers_are_one;
pub use machine::Machine;
pub use ready::Ready;
pub use topk_base::Memory;
