//! Numbers from 0 up, each of which one pass draws, and what came of each, at its place.
//!
//! Workers that share out tasks draw the next one each: each task is drawn once, whoever draws it, and a pass tells what it drew.
#![tactic(auto)]

mod draws;
mod pass;
mod placing;
mod rule;
mod seat;
mod tickets;
mod view;

pub use draws::Draws;
pub use pass::TicketPass;
pub use placing::{Done, place_all};
pub use tickets::Tickets;
