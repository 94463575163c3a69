//! The text of HTTP/1.1: requests and responses over links, one message in each direction, what a request's target names, and what both a node
//! and a query server reply.
//!
//! The heads and the lines of chunks are those of the grammar of `httparse` (RFC 9112), the framing of a body is that of RFC 9112, section 6.3.
//! A target stands in origin form, as `/lists/A/size`, or in absolute form, as `http://host/lists/A/size` (RFC 9112, section 3.2); its query
//! part is read as a form (`application/x-www-form-urlencoded`), by the grammar of `form_urlencoded`.
#![tactic(auto)]

mod chunks;
mod fault;
mod feed;
mod framing;
mod laws;
mod lines;
mod part;
mod query;
mod refusal;
mod replying;
mod request;
mod response;
mod routes;
mod target;
mod writing;

pub use fault::WireFault;
pub use framing::Framing;
pub use laws::{a_reply_is_the_only_answer, a_request_is_the_only_answer};
pub use query::{number_in, value_in};
pub use refusal::{Refusal, refusal_of};
pub use replying::{ConnEnd, refuse, send};
pub use request::{Head, read_request};
pub use response::{Reply, read_response};
pub use routes::Routes;
pub use target::{Target, read_target};
pub use topk_base::Memory;
pub use writing::{Kind, Place, write_reply, write_request};
