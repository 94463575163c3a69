//! The shelf of a process: its files, and the lists that hosts serve, each as a source of its own.
#![tactic(auto)]

mod dial_maker;
mod opening;
mod place_shelf;
mod place_source;

pub use dial_maker::DialMaker;
pub use opening::open_place;
pub use place_shelf::PlaceShelf;
pub use place_source::PlaceSource;
