//! Bundles: ranked lists and a query over them in one text, read with the first line at fault, and tables written as its sections.
#![tactic(auto)]

mod bundle;
mod gather;
mod given;
mod line;
mod marks;
mod reader;
mod row_front;
mod rows;
mod table;

pub use bundle::{Bundle, BundleFault, read_bundle};
pub use gather::gather_bundle;
pub use given::{GivenList, GivenRow};
pub use rows::put_rows;
pub use table::write_table;
