//! The route of a query server.

ghost use Rattle.std.specs.Prelude.{◌≡◌, codes};
ghost use Rattle.std.specs.Str.{bytes_eq};

use std::alloc::Global;
use std::marker::Model;
use topk_base::Memory;
use wire::Routes;

/// The one path of a query server, `/top`, in a router. It says nothing to contracts, since it is always the same.
#[derive(Drop)]
pub(crate) struct TopRoute {
    routes: Routes<()>,
}

impl Model for TopRoute {
    ghost use Rattle.std.specs.Prelude.{◌≡◌, ℕ, List, ⊤, codes, is_some};
    ghost use Rattle.std.specs.Str.{bytes_eq};
    ghost use Rattle.wire.specs.Routes.{value_at};

    ghost Value = { ⊤ };

    ghost view = { λ r. tt };

    ghost invariant = { λ r. (path : List ℕ) → is_some (value_at r.routes path) ≡ bytes_eq path (codes "/top") };
}

impl TopRoute {
    /// The route, which takes memory here and nowhere else.
    pub(crate) fn make(alloc: Global) -> Result<TopRoute, Memory> {
        let mut routes = Routes::new(alloc);
        match routes.add("/top", ()) {
            Ok(()) => Ok(TopRoute { routes }),
            Err(_) => {
                drop(routes);
                Err(Memory)
            }
        }
    }

    /// Whether a path is the route.
    pub(crate) fn is_at(&self, path: &[u8]) -> bool
        ensures { result ≡ bytes_eq path.now (codes "/top") }
    {
        self.routes.find(path).is_some()
    }
}
