//! The routes of a list.

ghost use Rattle.std.specs.Prelude.{◌≡◌, ℕ, List, Some, if◌then◌else◌, OnOk, IfOk, bytes_eq};
ghost use Rattle.wire.specs.Routes.{value_at};
ghost use Rattle.source_node.specs.Asking.{path_to, route_of};

use super::asked::Route;
use matchit::InsertError;
use std::alloc::Global;
use std::marker::Model;
use wire::Routes;

/// The paths of the three calls of a list. Contracts see them as the list's name.
#[derive(Drop)]
pub struct ListRoutes {
    name: String,
    routes: Routes<Route>,
}

impl Model for ListRoutes {
    ghost use Rattle.std.specs.Prelude.{◌≡◌, ℕ, List, string_bytes};
    ghost use Rattle.wire.specs.Routes.{value_at};
    ghost use Rattle.source_node.specs.Asking.{route_of};

    ghost Value = { List ℕ };

    ghost view = { λ r. string_bytes r.name };

    ghost invariant = { λ r. (path : List ℕ) → value_at r.routes path ≡ route_of (string_bytes r.name) path };
}

impl ListRoutes {
    /// The routes of the list of this name, or why there are none: no memory is left, or the name has a byte from `{` on, as no name of a
    /// catalog has.
    pub fn make(alloc: Global, name: &str) -> Result<ListRoutes, InsertError>
        ensures { IfOk result (λ made. made ≡ name.now) }
    {
        let mut routes = Routes::new(alloc);
        add_call(alloc, &mut routes, name, "/grade", Route::Grade)?;
        add_call(alloc, &mut routes, name, "/page", Route::Page)?;
        add_call(alloc, &mut routes, name, "/size", Route::Size)?;
        let name = String::from_str(alloc, name)?;
        Ok(ListRoutes { name, routes })
    }

    /// The route of a path.
    pub(crate) fn find(&self, path: &[u8]) -> Option<Route>
        ensures { result ≡ route_of self.now path.now }
    {
        self.routes.find(path)
    }
}

/// Adds the path of a call.
fn add_call(
    alloc: Global,
    routes: &mut Routes<Route>,
    name: &str,
    call: &str,
    route: Route,
) -> Result<(), InsertError>
    ensures { OnOk result ((path : List ℕ) → value_at routes.new path
        ≡ (if bytes_eq path (path_to name.now call.now) then Some route else value_at routes.old path)) }
{
    let path = format!(in alloc; "/lists/{name}{call}")?;
    let added = routes.add(path.as_str(), route);
    drop(path);
    added
}
