//! What stands behind a list's path in a request.

ghost use Rattle.std.specs.Prelude.{◌≡◌, IfOk, string_bytes};
ghost use Rattle.http_source.specs.Requests.{page_tail, grade_tail};

use super::Memory;
use std::alloc::Global;

/// The tail of a request for a list's size.
pub(crate) const SIZE_TAIL: &[u8] = b"/size";

/// The tail of a request for the rows after the first `from`, at most `count` of them.
pub(crate) fn page_tail(alloc: Global, from: u32, count: u32) -> Result<String, Memory>
    ensures { IfOk result (λ tail. string_bytes tail ≡ page_tail from count) }
{
    match format!(in alloc; "/page?from={from}&count={count}") {
        Ok(tail) => Ok(tail),
        Err(_) => Err(Memory),
    }
}

/// The tail of a request for the grade of an object.
pub(crate) fn grade_tail(alloc: Global, object: u32) -> Result<String, Memory>
    ensures { IfOk result (λ tail. string_bytes tail ≡ grade_tail object) }
{
    match format!(in alloc; "/grade?object={object}") {
        Ok(tail) => Ok(tail),
        Err(_) => Err(Memory),
    }
}
