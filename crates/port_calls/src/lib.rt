//! The commands at a port: `node`, which serves one list of a catalog, and `serve`, which answers queries over its lists.
#![tactic(auto)]

mod entries;
mod node_command;
mod node_serving;
mod said;
mod serve_command;
mod server_serving;

pub use node_command::node;
pub use said::say_served;
pub use serve_command::serve;
