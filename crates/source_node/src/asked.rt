//! What a request asks of a list.

ghost use Rattle.std.specs.Prelude.{◌≡◌, Ok, IfOk, IfSome};
ghost use Rattle.std.specs.Result.{result_map_both};
ghost use Rattle.source_node.specs.Asking.{routed, asked_by, page_asked, grade_asked, shown, AsksFor, AsksAt, HasCount};

use super::ListRoutes;
use std::alloc::Global;
use topk_base::{MAX_PAGE, Memory};
use wire::{Head, Refusal, number_in, read_target};

/// What a request asks of a list.
#[derive(Clone, Copy, Debug, PartialEq, Eq)]
pub enum Asked {
    /// How many rows it has.
    Size,
    /// The rows after the first `from`, at most `count` of them, which is from 1 to 10,000.
    Page { from: u32, count: u32 },
    /// The grade of an object.
    Grade { object: u32 },
}

/// A call of a list, by the last part of a path.
#[derive(Clone, Copy, Debug, PartialEq, Eq)]
pub(crate) enum Route {
    Size,
    Page,
    Grade,
}

/// A request that is on a route: the call, and the query part.
#[derive(Clone, Copy)]
pub(crate) struct Matched<'t> {
    route: Route,
    query: &'t [u8],
}

/// What the head of a request asks of the list of these routes, or why it is refused.
///
/// The first that holds decides: a method other than GET is not allowed; a target that doesn't begin with
/// `/` is bad, once it is read as RFC 9112, section 3.2 says; a path that is none of the three routes isn't
/// found; and a query part is bad that lacks a number that the route wants. `from` and `object` are from
/// 0 to 2^32 - 1, `count` is from 1 to 10,000; of several pairs with one name the first counts, and other
/// names are free. Only a query part takes memory to read.
pub fn asked_of(alloc: Global, routes: &ListRoutes, head: &Head) -> Result<Asked, Refusal>
    ensures asks { AsksFor routes.now head.now.method head.now.target.items result }
    ensures count { IfOk result HasCount }
{
    match routed(routes, head) {
        Ok(matched) => asked_at(alloc, matched),
        Err(why) => Err(why),
    }
}

/// What is asked on a route by its query part.
fn asked_at(alloc: Global, matched: Matched<'_>) -> Result<Asked, Refusal>
    ensures asks { AsksAt (Ok (shown matched.entry)) result }
    ensures count { IfOk result HasCount }
{
    match asked_by(alloc, matched.route, matched.query) {
        Ok(Some(asked)) => Ok(asked),
        Ok(None) => Err(Refusal::BadRequest),
        Err(_) => Err(Refusal::NoMemory),
    }
}

/// The route of a request, by its method and its target.
fn routed<'t>(routes: &ListRoutes, head: &'t Head) -> Result<Matched<'t>, Refusal>
    ensures { result_map_both shown (λ why. why) result ≡ routed routes.now head.now.method head.now.target.items }
{
    if !head.is_get() {
        return Err(Refusal::MethodNotAllowed);
    }
    let Some(target) = read_target(head.target.as_slice()) else {
        return Err(Refusal::BadRequest);
    };
    let Some(route) = routes.find(target.path) else {
        return Err(Refusal::NotFound);
    };
    Ok(Matched {
        route,
        query: target.query,
    })
}

/// What a route asks with this query part, or None where a number that it wants isn't there.
fn asked_by(alloc: Global, route: Route, query: &[u8]) -> Result<Option<Asked>, Memory>
    ensures asked { IfOk result (λ asked. asked ≡ asked_by route query.now) }
    ensures count { IfOk result (λ asked. IfSome asked HasCount) }
{
    match route {
        Route::Size => Ok(Some(Asked::Size)),
        Route::Page => page_asked(alloc, query),
        Route::Grade => grade_asked(alloc, query),
    }
}

/// The page that a query part asks for.
fn page_asked(alloc: Global, query: &[u8]) -> Result<Option<Asked>, Memory>
    ensures asked { IfOk result (λ asked. asked ≡ page_asked query.now) }
    ensures count { IfOk result (λ asked. IfSome asked HasCount) }
{
    let Some(from) = number_in(alloc, query, "from", 0, u32::MAX)? else {
        return Ok(None);
    };
    let Some(count) = number_in(alloc, query, "count", 1, MAX_PAGE as u32)? else {
        return Ok(None);
    };
    Ok(Some(Asked::Page { from, count }))
}

/// The grade that a query part asks for.
fn grade_asked(alloc: Global, query: &[u8]) -> Result<Option<Asked>, Memory>
    ensures asked { IfOk result (λ asked. asked ≡ grade_asked query.now) }
    ensures count { IfOk result (λ asked. IfSome asked HasCount) }
{
    let Some(object) = number_in(alloc, query, "object", 0, u32::MAX)? else {
        return Ok(None);
    };
    Ok(Some(Asked::Grade { object }))
}
