//! Query text: what a query is, and its line, printed and read back or refused by name.
//!
//! ```text
//! query     = "top " number " by " expr " using " algorithm [ " cost " number " " number ] [ " room " number ]
//! expr      = name | operator "(" expr { "," expr } ")" | "wsum(" term { "," term } ")"
//! term      = number "*" expr
//! algorithm = "ta" | "nra" | "ca" | "fa" | "taz" | "theta " number "/" number | "early " number
//! ```
//!
//! A number is `0`, or a digit 1 to 9 followed by digits. A name is 1 to 32 bytes: an ASCII letter,
//! then ASCII letters, digits and `_`. The operators are `min`, `max`, `sum` and `median`. A word of
//! an operator that `(` doesn't follow is a name.
//!
//! A line is read word by word: a word is a piece of the text that is read at once, fixed text such as `top ` or ` by `, a
//! number, a name, or an operator with its `(`. A `Course` says which words may come next.
#![tactic(auto)]

mod algorithm;
mod course;
mod draft;
mod fault;
mod frame;
mod named;
mod names;
mod operator;
mod parser_state;
mod printing;
mod query;
mod reading;
mod text;
mod words;

pub use algorithm::Algorithm;
pub use course::{Course, is_weighted};
pub use fault::QueryFault;
pub use monotone_fn::Costs;
pub use named::{algorithm_of, count_within, is_text, list_of, number_within, opened_by};
pub use names::Names;
pub use operator::Operator;
pub use parser_state::{ParserState, may_end};
pub use printing::{print, put_query};
pub use query::Query;
pub use reading::read;
pub use topk_base::Memory;
pub use words::{is_whole, longest};
