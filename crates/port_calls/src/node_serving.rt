//! One list at a port.

ghost use Rattle.std.specs.Prelude.{◌≡◌, ◌≤◌, ℕ, List};
ghost use Rattle.source_api.specs.Counting.{NoneFell};
ghost use Rattle.source_node.specs.Serving.{seen};
ghost use Rattle.command_line.specs.Calls.{Input, output_as, shelf_as, outside_of, call_at};
ghost use Rattle.port_calls.specs.Ports.{ports_of};
ghost use Rattle.port_calls.specs.NodeEnds.{EndsAtPlace, ServesAt};

use super::said::end_served;
use command_line::{NodeOptions, Status};
use source_api::{FailKind, Shelf, Source, Trouble};
use source_node::{ListRoutes, Served, serve_links};
use std::alloc::Global;
use tk_io::{Port, Sink};

/// Serves the list of this place at the port, by the routes of its name. Its source is taken of the shelf first, and put back however the call ends.
pub(crate) fn serve_place<H: Shelf, K: Sink, P: Port>(
    alloc: Global,
    routes: &ListRoutes,
    place: &str,
    options: &NodeOptions,
    shelf: &mut H,
    out: &mut K,
    port: &mut P,
) -> Status
    requires { routes.now ≡ options.now.name }
    ensures writes { K.faults out.old ≤ K.faults out.new }
    ensures ends { (words : List (List ℕ)) (input : Input) → EndsAtPlace options.now place.now
        (call_at words (outside_of input (output_as K.held K.faults out.old) (shelf_as H.texts H.lists H.versions H.at shelf.old))
        (outside_of input (output_as K.held K.faults out.new) (shelf_as H.texts H.lists H.versions H.at shelf.new)))
        (ports_of P.links P.closed P.faults P.calls (port.old, port.new)) result }
{
    match shelf.take(alloc, place) {
        Ok(mut source) => {
            let served = serve_source(alloc, routes, options, &mut source, port);
            shelf.put_back(place, source);
            end_served(out, served)
        }
        Err(Trouble::Fail(FailKind::Memory)) => Status::Memory,
        Err(Trouble::Fail(FailKind::Failed)) => Status::OpenFault,
        Err(Trouble::Fail(FailKind::Garbled)) => Status::OpenFault,
        Err(Trouble::Moved { .. }) => unreachable!(),
    }
}

/// Listens at the port, and serves the list of a source to its links.
fn serve_source<S: Source, P: Port>(
    alloc: Global,
    routes: &ListRoutes,
    options: &NodeOptions,
    source: &mut S,
    port: &mut P,
) -> Served
    requires { routes.now ≡ options.now.name }
    ensures list { S.list source.new ≡ S.list source.old }
    ensures states { S.states source.new ≡ S.states source.old }
    ensures later { NoneFell (S.counts source.old) (S.counts source.new) }
    ensures serves { ServesAt options.now (ports_of P.links P.closed P.faults P.calls (port.old, port.new))
        (seen (S.list source.old) (S.counts source.old) (S.calls source.old) (S.at_hand source.old) (S.states source.old))
        (seen (S.list source.new) (S.counts source.new) (S.calls source.new) (S.at_hand source.new) (S.states source.new))
        result }
{
    match port.listen(options.listening.at) {
        Ok(()) => serve_links(
            alloc,
            routes,
            options.version,
            options.listening.conns,
            source,
            port,
        ),
        Err(_) => Served::PortFault,
    }
}
