//! What a machine asks for next.

/// The next access of a query.
#[derive(Clone, Copy, PartialEq, Eq)]
pub enum Need {
    /// The row at this depth of the list, depths counting from 1.
    Row { list: u8, depth: u32 },
    /// The grade of this object in the list.
    Grade { list: u8, object: u32 },
    /// Nothing: the answer is known.
    Done,
}
