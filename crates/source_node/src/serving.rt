//! The links of a port, one after another.

ghost use Rattle.std.specs.Prelude.{◌≡◌, [], ◌∷◌};
ghost use Rattle.tk_io.specs.Calls.{PortCall, with_more};
ghost use Rattle.tk_io.specs.Links.{IsFresh};
ghost use Rattle.source_api.specs.Counting.{NoneFell};
ghost use Rattle.source_node.specs.Serving.{seen};
ghost use Rattle.source_node.specs.ServingLinks.{port_as, ServesOne, ServesNext, EndsServing};

use super::ListRoutes;
use super::node::node_conn;
use source_api::Source;
use std::alloc::Global;
use tk_io::{Failed, Port};

/// How serving the links of a port ended.
#[derive(Clone, Copy, Debug, PartialEq, Eq)]
pub enum Served {
    /// So many links were served: all that were asked for, or all that came before the port ended.
    Ended { conns: u64 },
    /// The port failed to give a link, and its count has gone up. Those that it gave before were served.
    PortFault,
}

/// Serves the list of these routes to at most so many links of a port, one after another. Each link is taken,
/// its one request answered as [`node_conn`] does, and given back before the next is taken. Once so many
/// were served, or the port ended or failed, it is asked for no further link. A link that fails ends its
/// own connection alone, and so does lack of memory. The port has to listen already. The call may wait for
/// ever.
pub fn serve_links<S: Source, P: Port>(
    alloc: Global,
    routes: &ListRoutes,
    version: Option<u64>,
    conns: u64,
    source: &mut S,
    port: &mut P,
) -> Served
    ensures list { S.list source.new ≡ S.list source.old }
    ensures states { S.states source.new ≡ S.states source.old }
    ensures later { NoneFell (S.counts source.old) (S.counts source.new) }
    ensures ends { EndsServing routes.now version conns
        (port_as P.links P.closed P.faults P.calls port.old)
        (port_as P.links P.closed P.faults P.calls port.new)
        (seen (S.list source.old) (S.counts source.old) (S.calls source.old) (S.at_hand source.old) (S.states source.old))
        (seen (S.list source.new) (S.counts source.new) (S.calls source.new) (S.at_hand source.new) (S.states source.new))
        result }
{
    let mut served = 0;
    while served < conns {
        match serve_next(alloc, routes, version, source, port) {
            Ok(true) => served += 1,
            Ok(false) => return Served::Ended { conns: served },
            Err(Failed) => return Served::PortFault,
        }
    }
    Served::Ended { conns: served }
}

/// Takes the next link, serves it and gives it back. False where the port has ended.
fn serve_next<S: Source, P: Port>(
    alloc: Global,
    routes: &ListRoutes,
    version: Option<u64>,
    source: &mut S,
    port: &mut P,
) -> Result<bool, Failed>
    ensures list { S.list source.new ≡ S.list source.old }
    ensures states { S.states source.new ≡ S.states source.old }
    ensures later { NoneFell (S.counts source.old) (S.counts source.new) }
    ensures serves { ServesNext routes.now version
        (port_as P.links P.closed P.faults P.calls port.old)
        (port_as P.links P.closed P.faults P.calls port.new)
        (seen (S.list source.old) (S.counts source.old) (S.calls source.old) (S.at_hand source.old) (S.states source.old))
        (seen (S.list source.new) (S.counts source.new) (S.calls source.new) (S.at_hand source.new) (S.states source.new))
        result }
{
    match port.accept() {
        Ok(Some(link)) => {
            serve_link(alloc, routes, version, source, port, link);
            Ok(true)
        }
        Ok(None) => Ok(false),
        Err(failed) => Err(failed),
    }
}

/// Serves a link that was just taken, and gives it back.
fn serve_link<S: Source, P: Port>(
    alloc: Global,
    routes: &ListRoutes,
    version: Option<u64>,
    source: &mut S,
    port: &mut P,
    mut link: P::L,
)
    requires out { P.may_close port.old }
    requires fresh { IsFresh (P.L.held link) (P.L.Intake.faults link) (P.L.Sink.faults link) (P.L.Intake.pieces link) }
    ensures list { S.list source.new ≡ S.list source.old }
    ensures states { S.states source.new ≡ S.states source.old }
    ensures later { NoneFell (S.counts source.old) (S.counts source.new) }
    ensures links { P.links port.new ≡ P.links port.old }
    ensures faults { P.faults port.new ≡ P.faults port.old }
    ensures calls { P.calls port.new ≡ with_more (PortCall.TookBack ∷ []) (P.calls port.old) }
    ensures serves { ServesOne routes.now version (P.L.left link) (P.L.held link) (P.closed port.old) (P.closed port.new)
        (seen (S.list source.old) (S.counts source.old) (S.calls source.old) (S.at_hand source.old) (S.states source.old))
        (seen (S.list source.new) (S.counts source.new) (S.calls source.new) (S.at_hand source.new) (S.states source.new)) }
{
    node_conn(alloc, routes, version, source, &mut link);
    port.hang_up(link);
}
