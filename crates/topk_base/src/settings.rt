//! How the queries of a run are run.

/// How the queries of a run are run.
#[derive(Clone, Copy, Debug, PartialEq, Eq)]
pub struct Settings {
    /// How many queries run at the same time, each on a thread of its own, 1 to 32.
    pub workers: u32,
    /// How many rows a page has at most, 1 to 10,000.
    pub page: u32,
    /// How many pages are read ahead, 0 to 100.
    pub ahead: u32,
}
