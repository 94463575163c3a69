//! What is made and run.

/// The numbers from which a table and queries over it are made.
#[derive(Clone, Copy)]
pub struct BulkInput {
    /// The number that the table is made from.
    pub start: u64,
    /// How many objects each list has, 1 to 200,000.
    pub count: u32,
    /// How many lists there are, 1 to 8.
    pub lists: u8,
    /// How many queries are made, at most 64.
    pub queries: u32,
}
