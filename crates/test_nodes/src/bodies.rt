//! What bodies are to be read as.

use page_json::JsonFault;
use ranked_list::Row;

/// What bytes are to be read as: what a body says, at a version, or no body.
#[derive(Clone, Copy)]
pub(crate) enum Reads<T> {
    Says(u64, T),
    Nothing,
}

/// Whether bytes were refused as no body, and not for lack of memory.
pub(crate) fn is_refused(fault: JsonFault) -> bool {
    fault == JsonFault::NotABody
}

/// Rows, each as its object and its grade.
pub(crate) type Pairs = &'static [(u32, u32)];

/// Whether rows are these.
pub(crate) fn are(rows: &[Row], pairs: &[(u32, u32)]) -> bool {
    if rows.len() != pairs.len() {
        return false;
    }
    for (place, (object, grade)) in pairs.iter().enumerate() {
        let Some(row) = rows.get(place) else {
            return false;
        };
        if row.object != *object || row.grade != *grade {
            return false;
        }
    }
    true
}
