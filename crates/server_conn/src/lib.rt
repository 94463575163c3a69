//! One connection of a query server: a request, the query line that it asks about, what becomes of the line, and the one reply.
//!
//! The one route is `/top`, the line stands in the pair `q` of the query part, and the body is the certificate of its answer or its refusal,
//! in plain text, as `cert_text` writes it. Connections follow one another through one pass to a pool, and what serves them remembers its last
//! answers.
#![tactic(auto)]

mod answers;
mod asked;
mod conn;
mod laws;
mod line;
mod opened;
mod route;
mod text;

pub use answers::{Answers, MAX_ANSWER, MAX_ANSWERS};
pub use conn::{Turn, serve_conn};
pub use laws::fails_are_shown;
pub use opened::{OpenedCatalog, OpenedEntry};
