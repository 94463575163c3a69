//! Streams of bytes whose failures are counted: what a program reads from and writes to.
#![tactic(auto)]

mod accepting;
mod answered;
mod copies;
mod dial;
mod intake;
mod letting_go;
mod link;
mod mem_dial;
mod mem_intake;
mod mem_link;
mod mem_links;
mod mem_port;
mod mem_sink;
mod net_dial;
mod net_link;
mod net_port;
mod pieces;
mod port;
mod sink;
mod std_intake;
mod std_sink;
mod time_limit;
mod whole;
mod writer;

pub use dial::Dial;
pub use intake::Intake;
pub use link::Link;
pub use mem_dial::MemDial;
pub use mem_intake::MemIntake;
pub use mem_link::{Ended, MemLink, Share};
pub use mem_port::MemPort;
pub use mem_sink::MemSink;
pub use net_dial::NetDial;
pub use net_link::NetLink;
pub use net_port::NetPort;
pub use pieces::PIECE;
pub use port::Port;
pub use sink::Sink;
pub use std_intake::StdIntake;
pub use std_sink::StdSink;
pub use topk_base::Memory;
pub use whole::{ReadError, read_piece, read_text, write_text};
pub use writer::{Put, Writer};

/// A call to the outside failed, and the count of faults of its object has gone up.
#[derive(Clone, Copy, Debug, PartialEq, Eq)]
pub struct Failed;
