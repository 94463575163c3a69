//! One row of a ranked list, and rows as they come.

use topk_base::Seq32;

/// An object and its grade in one list.
#[derive(Clone, Copy, Debug, PartialEq, Eq)]
pub struct Row {
    pub object: u32,
    pub grade: u32,
}

/// The rows of one page, in order.
pub type PageRows = Seq32<Row>;
