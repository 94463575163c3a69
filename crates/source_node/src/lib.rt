//! A node serves one list over HTTP: a connection is one request, and one reply from a source.
//!
//! The routes are `/lists/NAME/size`, `/lists/NAME/page?from=F&count=C` and `/lists/NAME/grade?object=O`; the bodies are those of `page_json`.
//! At a port it serves one connection after another.
#![tactic(auto)]

mod answer;
mod asked;
mod laws;
mod node;
mod routes;
mod serving;

pub use answer::Answer;
pub use asked::{Asked, asked_of};
pub use laws::{a_body_says_its_answer, an_answer_is_read, each_link_is_of_one_list};
pub use node::node_conn;
pub use routes::ListRoutes;
pub use serving::{Served, serve_links};
