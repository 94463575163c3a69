//! What a request asks of a query server.

ghost use Rattle.std.specs.Prelude.{◌≡◌, Ok};
ghost use Rattle.std.specs.Cow.{cow_str_bytes};
ghost use Rattle.std.specs.Result.{result_map_both};
ghost use Rattle.server_conn.specs.Asking.{routed, AsksFor, AsksAt};

use super::route::TopRoute;
use std::alloc::Global;
use std::borrow::CowStr;
use wire::{Head, Refusal, read_target, value_in};

/// The query line that the head of a request asks about, or why it is refused.
///
/// The first that holds decides: a method other than GET is not allowed; a target that doesn't begin with `/` is bad, once it is read as
/// RFC 9112, section 3.2 says; a path other than `/top` isn't found; and a query part without `q` is bad. The line is the value of the
/// first `q`, which is empty where that has no `=`. Only a query part takes memory to read.
pub(crate) fn line_asked<'h>(
    alloc: Global,
    route: &TopRoute,
    head: &'h Head,
) -> Result<CowStr<'h>, Refusal>
    ensures { AsksFor head.now.method head.now.target.items (result_map_both cow_str_bytes (λ why. why) result) }
{
    match routed(route, head) {
        Ok(query) => line_at(alloc, query),
        Err(why) => Err(why),
    }
}

/// The query part of a request on the route, by its method and its target.
fn routed<'h>(route: &TopRoute, head: &'h Head) -> Result<&'h [u8], Refusal>
    ensures { result_map_both (λ query. query.now) (λ why. why) result ≡ routed head.now.method head.now.target.items }
{
    if !head.is_get() {
        return Err(Refusal::MethodNotAllowed);
    }
    let Some(target) = read_target(head.target.as_slice()) else {
        return Err(Refusal::BadRequest);
    };
    if !route.is_at(target.path) {
        return Err(Refusal::NotFound);
    }
    Ok(target.query)
}

/// The query line of a query part.
fn line_at<'q>(alloc: Global, query: &'q [u8]) -> Result<CowStr<'q>, Refusal>
    ensures { AsksAt (Ok query.now) (result_map_both cow_str_bytes (λ why. why) result) }
{
    match value_in(alloc, query, "q") {
        Ok(Some(line)) => Ok(line),
        Ok(None) => Err(Refusal::BadRequest),
        Err(_) => Err(Refusal::NoMemory),
    }
}
