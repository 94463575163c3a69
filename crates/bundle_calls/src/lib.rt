//! The commands over one input text: `one`, `compare`, `judge` and `make`.
//!
//! `one` answers the query of a bundle, or of lists in memory, `compare` tells what each algorithm reads for it, `judge` tells whether a
//! certificate fixes its answer, and `make` writes a made table as the sections of a bundle.
//!
//! The lists of a bundle are told, so a query runs over them without sources: its machine is fed until it needs nothing more.
#![tactic(auto)]

mod answering;
mod bundled;
mod comparing;
mod drive;
mod figures;
mod judging;
mod lists;
mod made;
mod replies;
mod told;

pub use answering::one;
pub use comparing::{compare, compared_are_those_of_one};
pub use judging::judge;
pub use lists::{answer_lists, lists_are_replied_to_as_printed};
pub use made::make;
