//! Certificates and refusals as text: what is printed of a query line's outcome, and certificates read back.
//!
//! ```text
//! certificate LINE
//! query QUERY
//! count COUNT
//! version NAME VERSION          one line for each list whose version isn't 0, in the query's order
//! answer OBJECT LOW HIGH        one line for each object of the answer, in its order
//! guarantee P Q                  where the query's algorithm guarantees a factor, and nowhere else
//! stop depth DEPTH sorted SORTED random RANDOM cost COST
//! s NAME OBJECT GRADE           a sorted access
//! r NAME OBJECT GRADE           a random access
//! end
//! ```
//!
//! A refused query line is one line: `refused LINE`, the name of the refusal and its fields.
//!
//! Within which factor of the best an answer is (`guarantee`) goes by its query's algorithm.
//!
//! It is the factor that is asked for, or what the transcript of an early stop shows. Whoever writes a certificate and whoever judges one reckon it
//! from the same.
#![tactic(auto)]

mod algorithms;
mod certificate;
mod early;
mod factor;
mod fault;
mod fields;
mod outcome;
mod parts;
mod reader;
mod reading;
mod refusal;
mod rows;
mod versions;
mod words;
mod writing;

pub use algorithms::{guarantee, has_guarantee};
pub use certificate::{Accesses, Certificate};
pub use early::early_guarantee;
pub use factor::Guarantee;
pub use fault::CertFault;
pub use outcome::{Outcome, put_outcome, write_outcome};
pub use reading::read_certificate;
pub use refusal::Refusal;
pub use versions::Versions;
pub use writing::depth_of;
