//! Ranked lists that are read over HTTP, one request for each call.
#![tactic(auto)]

mod asking;
mod exchange;
mod http_source;
mod laws;
mod saying;
mod tails;

pub use http_source::HttpSource;
pub use laws::{replies_say_one_thing, what_is_said_is_given};
pub use topk_base::Memory;
