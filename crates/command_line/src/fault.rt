//! Why words are refused.

/// Why words are no command.
#[derive(Clone, Copy, Debug, PartialEq, Eq)]
pub enum WordsFault {
    /// They aren't in the grammar of any command.
    BadWords,
    /// No memory was left.
    Memory,
}
