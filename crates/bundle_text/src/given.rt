//! Lists that a caller has in memory.

/// A row, as a caller has it.
#[repr(C)]
#[derive(Clone, Copy, Debug, PartialEq, Eq)]
pub struct GivenRow {
    /// The object's number.
    pub object: u32,
    /// Its grade.
    pub grade: u32,
}

/// A list under its name, as a caller has it.
#[repr(C)]
#[derive(Clone, Copy)]
pub struct GivenList<'a> {
    /// The name of the list.
    pub name: &'a [u8],
    /// The rows of the list, from the top down.
    pub rows: &'a [GivenRow],
}
