//! The command `node`: one list of a catalog at a port.

ghost use Rattle.std.specs.Prelude.{◌≡◌, ◌≤◌, ℕ, List, option_map};
ghost use Rattle.csv_records.specs.Records.{records_of};
ghost use Rattle.catalog_text.specs.Catalog.{IsCatalog};
ghost use Rattle.command_line.specs.Calls.{Input, output_as, shelf_as, outside_of, call_at};
ghost use Rattle.port_calls.specs.Named.{place_named};
ghost use Rattle.port_calls.specs.Ports.{ports_of};
ghost use Rattle.port_calls.specs.NodeEnds.{EndsNode, EndsOverCatalog};

use super::node_serving::serve_place;
use super::said::refuse_name;
use catalog_run::refuse;
use catalog_text::{Catalog, read_catalog};
use command_line::{NodeOptions, Status};
use source_api::{FailKind, Shelf, Trouble};
use source_node::ListRoutes;
use std::alloc::Global;
use tk_io::{Port, Sink};

/// Serves one list of a catalog at a port: the list of the options' name, of the catalog at their place. The catalog's text is asked of the
/// shelf first, then the routes of the list are made, then its source is taken, then the port listens, and its links are served one after another. The source is put
/// back however the call ends. The input isn't asked for anything. The call may wait for ever.
///
/// - `Done`: so many links were served as the options say, or all that came before the port ended, and `served COUNT` was written. What each
///   link got is the whole reply to its request, or a front of it where the link failed.
/// - `Partial`: the catalog has no list of this name, and `refused node UnknownList NAME` was written; nothing was asked of the port.
/// - `BadCatalog`: the catalog's text is none, and `refused catalog NAME RECORD` was written.
/// - `OpenFault`: the shelf failed to give the catalog's text, or the source; nothing was written, and nothing was asked of the port.
/// - `PortFault`: the port failed to listen, or to give a link; those that it gave before were served, and nothing was written.
/// - `WriteFault`: a write failed; a front of the text was written.
/// - `Memory`: no memory was left before the port listened; nothing was written.
///
/// No other status comes.
pub fn node<H: Shelf, K: Sink, P: Port>(
    alloc: Global,
    options: &NodeOptions,
    shelf: &mut H,
    out: &mut K,
    port: &mut P,
) -> Status
    ensures writes { K.faults out.old ≤ K.faults out.new }
    ensures ends { (words : List (List ℕ)) (input : Input) → EndsNode options.now
        (call_at words (outside_of input (output_as K.held K.faults out.old) (shelf_as H.texts H.lists H.versions H.at shelf.old))
        (outside_of input (output_as K.held K.faults out.new) (shelf_as H.texts H.lists H.versions H.at shelf.new)))
        (ports_of P.links P.closed P.faults P.calls (port.old, port.new)) result }
{
    let text = match shelf.text(alloc, options.catalog.as_str()) {
        Ok(text) => text,
        Err(Trouble::Fail(FailKind::Memory)) => return Status::Memory,
        Err(Trouble::Fail(FailKind::Failed)) => return Status::OpenFault,
        Err(Trouble::Fail(FailKind::Garbled)) => return Status::OpenFault,
        Err(Trouble::Moved { .. }) => unreachable!(),
    };
    let read = read_catalog(alloc, &text);
    drop(text);
    match read {
        Ok(catalog) => {
            let status = node_in(alloc, &catalog, options, shelf, out, port);
            let_catalog_go(catalog);
            status
        }
        Err(fault) => refuse(out, fault),
    }
}

/// Lets a catalog go.
fn let_catalog_go(_: Catalog) {}

/// Serves one list of a catalog at a port.
fn node_in<H: Shelf, K: Sink, P: Port>(
    alloc: Global,
    catalog: &Catalog,
    options: &NodeOptions,
    shelf: &mut H,
    out: &mut K,
    port: &mut P,
) -> Status
    ensures writes { K.faults out.old ≤ K.faults out.new }
    ensures ends { (words : List (List ℕ)) (input : Input) (text : List ℕ) → IsCatalog (records_of text) catalog.now
        → EndsOverCatalog options.now text
        (call_at words (outside_of input (output_as K.held K.faults out.old) (shelf_as H.texts H.lists H.versions H.at shelf.old))
        (outside_of input (output_as K.held K.faults out.new) (shelf_as H.texts H.lists H.versions H.at shelf.new)))
        (ports_of P.links P.closed P.faults P.calls (port.old, port.new)) result }
{
    match place_named(catalog, options.name.as_str()) {
        Some(place) => match ListRoutes::make(alloc, options.name.as_str()) {
            Ok(routes) => {
                let status = serve_place(alloc, &routes, place, options, shelf, out, port);
                drop(routes);
                status
            }
            Err(_) => Status::Memory,
        },
        None => refuse_name(out, options.name.as_str()),
    }
}

/// The place of the list of this name.
fn place_named<'a>(catalog: &'a Catalog, name: &str) -> Option<&'a str>
    ensures { option_map (λ place. place.now) result ≡ place_named name.now catalog.now }
{
    let place = catalog.find(name.as_bytes())?;
    match catalog.get(place) {
        Some(entry) => Some(entry.place.as_str()),
        None => None,
    }
}
