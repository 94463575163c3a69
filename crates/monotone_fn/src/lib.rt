//! Monotone expressions over the grades of one object: their values, their bounds and which trees are refused.
#![tactic(auto)]

mod copies;
mod costs;
mod expr;
mod fault;
mod grades;
mod node;
mod shape;
mod summary;
mod value;
mod values;

pub use costs::Costs;
pub use expr::Expr;
pub use fault::ExprFault;
pub use node::{Node, Nodes, Term, Terms};
pub use topk_base::Memory;
