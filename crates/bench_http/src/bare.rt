//! A response read as a short program over the same two crates does: the head is parsed where it lies, and what follows it is the body.

use httparse::Status;
use httparse::spans::{EMPTY_HEADER_SPAN, parse_response};
use ranked_list::Row;
use serde_json::Value;
use std::alloc::Global;

/// How many rows the response says.
pub(crate) fn rows_of(alloc: Global, response: &[u8]) -> Option<usize> {
    let mut headers = [EMPTY_HEADER_SPAN; 64];
    let Ok(Status::Complete(head)) = parse_response(response, &mut headers) else {
        return None;
    };
    let value = Value::from_slice(alloc, response.get(head.len..)?).ok()?;
    let list = value.get("rows")?.as_array()?;
    let mut rows = Vec::with_capacity(alloc, list.len()).ok()?;
    for pair in list {
        rows.push(row_of(pair)?).ok()?;
    }
    Some(rows.len())
}

/// The row that a pair of numbers is.
fn row_of(pair: &Value) -> Option<Row> {
    let pair = pair.as_array()?;
    let object = u32::try_from(pair.get(0)?.as_u64()?).ok()?;
    let grade = u32::try_from(pair.get(1)?.as_u64()?).ok()?;
    Some(Row { object, grade })
}
