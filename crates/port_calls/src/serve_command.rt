//! The command `serve`.

ghost use Rattle.std.specs.Prelude.{◌≤◌, ℕ, List};
ghost use Rattle.topk_base.specs.Ranges.{AreSettings};
ghost use Rattle.command_line.specs.Calls.{Input, output_as, shelf_as, outside_of, call_at};
ghost use Rattle.port_calls.specs.Ports.{ports_of};
ghost use Rattle.port_calls.specs.ServeEnds.{EndsServe, SaysServeEnded};

use super::said::say_served;
use super::server_serving::serve_lists;
use catalog_run::refuse;
use catalog_text::{Catalog, read_catalog};
use command_line::{ServeOptions, Status};
use query_server::Served;
use source_api::{FailKind, Shelf, Trouble};
use std::alloc::Global;
use std::sync::Wait;
use std::thread::Threads;
use std::time::Clock;
use tk_io::{Port, Sink};

/// Serves queries over the lists of a catalog at a port: each link gets the reply to its one request. The catalog's text is asked of the shelf
/// first, then the source of each list is taken, then the port listens. As many threads as the settings say answer links at the same time, and
/// each source has one more that reads ahead. All sources that were taken are put back, however the call ends. The lines of a list whose source
/// couldn't be opened are refused. The input isn't asked for anything. The call may wait for ever.
///
/// - `Done`: so many links were taken as the options say, or all that came before the port ended, and `served COUNT` was written.
/// - `BadCatalog`: the catalog's text is none, and `refused catalog NAME RECORD` was written; nothing was asked of the port.
/// - `OpenFault`: the shelf failed to give the catalog's text; nothing was written, and nothing was asked of the port.
/// - `PortFault`: the port failed to listen, or to give a link; nothing was written.
/// - `WriteFault`: a write failed; a front of the text was written.
/// - `Memory`: no memory was left; nothing was written.
///
/// No other status comes.
pub fn serve<W: Threads + Wait + Clock + Sync, H: Shelf, K: Sink, P: Port>(
    rt: &W,
    alloc: Global,
    options: &ServeOptions,
    shelf: &mut H,
    out: &mut K,
    port: &mut P,
) -> Status
    requires { AreSettings options.now.settings }
    ensures writes { K.faults out.old ≤ K.faults out.new }
    ensures ends { (words : List (List ℕ)) (input : Input) → EndsServe options.now
        (call_at words (outside_of input (output_as K.held K.faults out.old) (shelf_as H.texts H.lists H.versions H.at shelf.old))
        (outside_of input (output_as K.held K.faults out.new) (shelf_as H.texts H.lists H.versions H.at shelf.new)))
        (ports_of P.links P.closed P.faults P.calls (port.old, port.new)) result }
{
    let text = match shelf.text(alloc, options.catalog.as_str()) {
        Ok(text) => text,
        Err(Trouble::Fail(FailKind::Memory)) => return Status::Memory,
        Err(Trouble::Fail(FailKind::Failed)) => return Status::OpenFault,
        Err(Trouble::Fail(FailKind::Garbled)) => return Status::OpenFault,
        Err(Trouble::Moved { .. }) => unreachable!(),
    };
    let read = read_catalog(alloc, &text);
    drop(text);
    match read {
        Ok(catalog) => {
            let served = serve_lists(rt, alloc, catalog, options, shelf, port);
            end_served(out, served)
        }
        Err(fault) => refuse(out, fault),
    }
}

/// Ends as serving did: how many links were taken is written, or nothing where the port failed or memory ran out.
fn end_served<K: Sink>(out: &mut K, served: Served) -> Status
    ensures counts { K.faults out.old ≤ K.faults out.new }
    ensures says { SaysServeEnded (output_as K.held K.faults out.old) (output_as K.held K.faults out.new) served result }
{
    match served {
        Served::Ended { conns } => say_served(out, conns),
        Served::PortFault => Status::PortFault,
        Served::Memory => Status::Memory,
    }
}
