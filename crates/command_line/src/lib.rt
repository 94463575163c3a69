//! The words of a command line, the command that they are, and how a call ends.
//!
//! The first word is the command's name, and what may follow it is the command's own: places and options, each with a
//! value. The word `--` ends the options and stands for nothing itself. There is no help option.
//!
//! A call has words, and stands between an input, an output and a shelf as they are before it and as they are after it. How it ends is
//! its `Status`, the program's exit status: each says what was read and what was written, and which count of faults rose.
#![tactic(auto)]

mod arguments;
mod bulking;
mod command;
mod fault;
mod given;
mod laws;
mod making;
mod node;
mod running;
mod saying;
mod serving;
mod status;
mod word;
mod words;

use arguments::{Argument, found_in};
pub use bulking::BulkOptions;
pub use command::{Command, read_command};
pub use fault::WordsFault;
pub use given::read_words;
pub use laws::words_give_what_their_line_gives;
pub use making::MakeOptions;
pub use node::{Listening, NodeOptions};
pub use running::RunOptions;
pub use saying::{ended, say};
pub use serving::ServeOptions;
pub use status::Status;
pub use topk_base::{Memory, Settings};
pub use word::Word;
pub use words::Words;
