//! Texts that are made piece by piece. Each call tells whether there was memory.

use std::alloc::AllocError;

/// Adds these pieces, one after another.
pub(crate) fn add_pieces(text: &mut String, pieces: &[&str]) -> bool {
    for piece in pieces {
        if text.push_str(*piece).is_err() {
            return false;
        }
    }
    true
}

/// Adds a line, where there was memory to make it, and drops it.
pub(crate) fn add_line(text: &mut String, line: Result<String, AllocError>) -> bool {
    let Ok(line) = line else {
        return false;
    };
    let is_added = text.push_str(&line).is_ok();
    drop(line);
    is_added
}
