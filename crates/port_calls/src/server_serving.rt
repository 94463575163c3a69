//! The lists of a catalog, served at a port.

ghost use Rattle.std.specs.Prelude.{◌≡◌, ◌<◌, ◌^◌, [], All, IfOk, OnErr, OnOk, length, map};
ghost use Rattle.topk_base.specs.Ranges.{AreSettings};
ghost use Rattle.source_api.specs.Places.{SameAtEach};
ghost use Rattle.catalog_open.specs.Slots.{IsIdle, sources_of};
ghost use Rattle.catalog_open.specs.Takings.{AreReady, seen};
ghost use Rattle.catalog_open.specs.Openings.{AreOpened, AsksEachAtMostOnce, AsksEachOnce, no_sources};
ghost use Rattle.query_server.specs.Homes.{AreHomes, home_of};
ghost use Rattle.query_server.specs.Reopening.{IsAtHand};
ghost use Rattle.command_line.specs.Calls.{shelf_as};
ghost use Rattle.port_calls.specs.Ports.{ports_of};
ghost use Rattle.port_calls.specs.Opening.{IsOneOf, every};
ghost use Rattle.port_calls.specs.ServeEnds.{EndsLists, ServesPort};

use super::entries::{entries_of, mark_every};
use catalog_open::{OpenSources, open_wanted, put_back_all};
use catalog_text::Catalog;
use command_line::ServeOptions;
use fetcher::Slot;
use query_server::{OpenedCatalog, Served, serve_all};
use source_api::{Shelf, Source};
use std::alloc::Global;
use std::sync::Wait;
use std::thread::Threads;
use std::time::Clock;
use tk_io::Port;
use topk_base::Memory;

/// Takes the source of each list of a catalog, listens at the port, serves its links over the lists, and puts the sources back, however that ends.
pub(crate) fn serve_lists<W: Threads + Wait + Clock + Sync, H: Shelf, P: Port>(
    rt: &W,
    alloc: Global,
    catalog: Catalog,
    options: &ServeOptions,
    shelf: &mut H,
    port: &mut P,
) -> Served
    requires { AreSettings options.now.settings }
    ensures { EndsLists options.now.listening catalog
        (shelf_as H.texts H.lists H.versions H.at shelf.old) (shelf_as H.texts H.lists H.versions H.at shelf.new)
        (ports_of P.links P.closed P.faults P.calls (port.old, port.new)) result }
{
    let Ok(mut sources) = open_all(rt, alloc, shelf, &catalog) else {
        return Served::Memory;
    };
    match entries_of(alloc, &sources.openings) {
        Ok(entries) => {
            let mut lists = OpenedCatalog::make(catalog, entries);
            let served = serve_at(rt, alloc, options, &mut lists, &mut sources.slots, port);
            put_back_all(shelf, lists.catalog(), sources);
            served
        }
        Err(_) => {
            put_back_all(shelf, &catalog, sources);
            Served::Memory
        }
    }
}

/// Opens the source of each list of a catalog. Where memory is refused none is open.
fn open_all<W: Threads + Sync, H: Shelf>(
    rt: &W,
    alloc: Global,
    shelf: &mut H,
    catalog: &Catalog,
) -> Result<OpenSources<H::Item>, Memory>
    ensures texts { SameAtEach (H.texts shelf.old) (H.texts shelf.new) }
    ensures lists { SameAtEach (H.lists shelf.old) (H.lists shelf.new) }
    ensures versions { SameAtEach (H.versions shelf.old) (H.versions shelf.new) }
    ensures few { AsksEachAtMostOnce catalog.now (every catalog.now) (H.at shelf.old) (H.at shelf.new) }
    ensures once { OnOk result (AsksEachOnce catalog.now (every catalog.now) (H.at shelf.old) (H.at shelf.new)) }
    ensures ready { IfOk result (AreReady (seen H.Item.list H.Item.states H.Item.at_hand H.Item.counts H.Item.calls) catalog.now
        (H.knows shelf.new)) }
    ensures many { IfOk result (λ sources. length sources.slots.items ≡ length sources.places.items) }
    ensures opened { IfOk result (λ sources. AreOpened (H.lists shelf.old) (H.versions shelf.old) catalog.now (IsOneOf catalog.now)
        (H.at shelf.old) (H.at shelf.new) sources.openings.items (sources_of H.Item.list H.Item.at_hand sources)) }
    ensures closed { OnErr result (AreOpened (H.lists shelf.old) (H.versions shelf.old) catalog.now (IsOneOf catalog.now)
        (H.at shelf.old) (H.at shelf.new) [] no_sources) }
{
    let Ok(marks) = mark_every(alloc, catalog) else {
        return Err(Memory);
    };
    let opening = open_wanted(rt, alloc, shelf, catalog, &marks);
    drop(marks);
    opening
}

/// Listens at the port, and serves its links over the lists.
fn serve_at<W: Threads + Wait + Clock + Sync, S: Source, P: Port>(
    rt: &W,
    alloc: Global,
    options: &ServeOptions,
    lists: &mut OpenedCatalog,
    slots: &mut Vec<Slot<S>>,
    port: &mut P,
) -> Served
    requires settings { AreSettings options.now.settings }
    requires few { length slots.old.items < 2 ^ 32 }
    requires homes { AreHomes (length slots.old.items) (map home_of lists.old.entries) }
    requires at_hand { All (IsAtHand S.at_hand slots.old.items) lists.old.entries }
    requires empty { All IsIdle slots.old.items }
    ensures idle { All IsIdle slots.new.items }
    ensures many { length slots.new.items ≡ length slots.old.items }
    ensures catalog { lists.new.catalog ≡ lists.old.catalog }
    ensures serves { ServesPort options.now.listening (ports_of P.links P.closed P.faults P.calls (port.old, port.new)) result }
    ensures closed { P.closed port.new ≡ P.closed port.old }
{
    match port.listen(options.listening.at) {
        Ok(()) => serve_all(
            rt,
            alloc,
            lists,
            slots,
            port,
            options.settings,
            options.listening.conns,
        ),
        Err(_) => Served::PortFault,
    }
}
