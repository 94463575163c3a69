//! The JSON bodies of a list's replies, both ways: its size, a page of its rows, a grade, each at the list's version.
#![tactic(auto)]

mod fault;
mod grade;
mod laws;
mod object;
mod page;
mod parts;
mod size;

pub use fault::JsonFault;
pub use grade::{read_grade, write_grade};
pub use laws::{
    a_body_says_one_thing, bodies_are_short, grades_read_back, pages_read_back, sizes_read_back,
};
pub use object::Versioned;
pub use page::{read_page, write_page};
pub use size::{read_size, write_size};
pub use topk_base::Memory;
