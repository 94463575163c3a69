//! Ranked lists in files of comma-separated values.
#![tactic(auto)]

mod file_shelf;
mod file_source;
mod file_tree;
mod grades;
mod list_file;
mod list_source;
mod numbers;
mod plain_rows;

pub use file_shelf::{FileShelf, count_take, count_text, read_file};
pub use file_source::FileSource;
pub use file_tree::FileTree;
pub use list_source::ListSource;
pub use source_api::Memory;
