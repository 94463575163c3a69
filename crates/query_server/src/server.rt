//! A server.

ghost use Rattle.std.specs.Prelude.{◌≡◌, ◌≢◌, ◌<◌, ◌≤◌, ◌^◌, None, All, length, map};
ghost use Rattle.topk_base.specs.Ranges.{AreSettings};
ghost use Rattle.query_server.specs.Homes.{AreHomes, home_of};
ghost use Rattle.query_server.specs.Reopening.{IsAtHand};
ghost use Rattle.query_server.specs.Serving.{AsksForLinks, Leaves, ServesLinks};

use super::accepting::{Accepted, accept_all};
use super::generation::serve_side;
use super::lifetime::{MIN_PAUSE, lifetime_of};
use super::queue::LinkQueue;
use fetcher::Slot;
use server_conn::OpenedCatalog;
use source_api::Source;
use std::alloc::Global;
use std::sync::Wait;
use std::thread;
use std::thread::Threads;
use std::time::Clock;
use tk_io::Port;
use topk_base::Settings;

/// How a server ended.
#[derive(Clone, Copy, PartialEq, Eq)]
pub enum Served {
    /// So many links were taken: all that were asked for, or all that came before the port ended.
    Ended { conns: u64 },
    /// The port failed to give a link, and its count has gone up.
    PortFault,
    /// No memory was left to open a generation.
    Memory,
}

/// How a round of a server ended that was to take so many links.
#[derive(Clone, Copy)]
struct Round {
    asked: u64,
    served: Served,
}

/// The side with the port, for a round. Where no worker has begun it takes one link: they may have no thread, and begin once this side has ended.
/// Where nobody takes links any more memory ran out.
fn accept_side<R: Wait + Clock, P: Port>(
    rt: &R,
    port: &mut P,
    queue: &LinkQueue<P::L>,
    conns: u64,
) -> Round
    requires { 0 < conns }
    ensures asked { (0 < result.asked) × (result.asked ≤ conns) }
    ensures serves { ServesLinks result.asked (P.links port.old) (P.links port.new) (P.faults port.old) (P.faults port.new) result.served }
    ensures closed { P.closed port.new ≡ P.closed port.old }
    ensures calls { AsksForLinks result.asked (P.calls port.old) (P.calls port.new) result.served }
{
    let asked = if queue.has_begun(rt) { conns } else { 1 };
    let served = match accept_all(rt, port, queue, asked) {
        Accepted::Ended { conns: taken } => Served::Ended { conns: taken },
        Accepted::PortFault => Served::PortFault,
        Accepted::Left => Served::Memory,
    };
    Round { asked, served }
}

/// A round of a server: at most so many links are accepted on one side and served on the other. Where the system makes no thread for the workers
/// they serve the one link that was accepted, once the other side has ended.
#[tactic(auto, using(crate::proofs::TakingLaws::asked_some))]
fn serve_round<W: Threads + Wait + Clock + Sync, S: Source, P: Port>(
    rt: &W,
    alloc: Global,
    catalog: &mut OpenedCatalog,
    sources: &mut Vec<Slot<S>>,
    port: &mut P,
    queue: &LinkQueue<P::L>,
    settings: Settings,
    conns: u64,
    pause: &mut u64,
) -> Round
    requires some { 0 < conns }
    requires settings { AreSettings settings }
    requires few { length sources.old.items < 2 ^ 32 }
    requires homes { AreHomes (length sources.old.items) (map home_of catalog.old.entries) }
    requires at_hand { All (IsAtHand S.at_hand sources.old.items) catalog.old.entries }
    requires empty { All (λ slot. slot.feeder ≡ None) sources.old.items }
    ensures asked { (0 < result.asked) × (result.asked ≤ conns) }
    ensures serves { ServesLinks result.asked (P.links port.old) (P.links port.new) (P.faults port.old) (P.faults port.new) result.served }
    ensures closed { P.closed port.new ≡ P.closed port.old }
    ensures calls { AsksForLinks result.asked (P.calls port.old) (P.calls port.new) result.served }
    ensures left { Leaves S.list S.counts S.calls S.at_hand sources.old.items sources.new.items catalog.old catalog.new }
    ensures at_hand { result.served ≢ Served.Memory → All (IsAtHand S.at_hand sources.new.items) catalog.new.entries }
{
    queue.renew(rt);
    let mut round = Round {
        asked: conns,
        served: Served::Memory,
    };
    let mut short = true;
    thread::join_mut(
        rt,
        &mut ||
            requires { AreSettings settings × (length sources.now.items < 2 ^ 32) × AreHomes (length sources.now.items) (map home_of catalog.now.entries)
                × All (IsAtHand S.at_hand sources.now.items) catalog.now.entries × All (λ slot. slot.feeder ≡ None) sources.now.items }
        { short = serve_side(rt, alloc, catalog, sources, queue, settings, pause) },
        &mut ||
            requires { 0 < conns }
        { round = accept_side(rt, port, queue, conns) },
    );
    if short {
        round.served = Served::Memory;
    }
    round
}

/// Serves at most so many links of a port, which has to listen already: each gets the reply to its one request, as
/// `server_conn::serve_conn` gives it over the catalog. As many workers as the settings say serve links at the same time. What a query needs
/// of a source and no other thread fetches its worker fetches itself; beside them one fetcher a source reads ahead. This thread accepts the
/// links; at most as many as there are workers wait. Where the system makes no other thread it serves them too, one after another. A worker
/// drops a link when its connection has ended; one that fails ends its own connection alone. Every connection has ended when the call returns,
/// unless memory ran out. The call may wait for ever.
///
/// A generation ends when a source moves to another version. It ends too when a link comes and it is as old as it gets: `MIN_PAUSE`
/// seconds where a list isn't open, twice as many as before while nothing changes, up to `MAX_PAUSE`; and `MAX_PAUSE` where a list states
/// versions. Then no connection begins until those that were begun have ended, and once a further link waits each source of a list, open
/// or not, is asked for its size, and for nothing else, the catalog gets what became of the lists, and a new pool is made. So the answers of a
/// generation are of one version of each list, the one that its source has at hand. A list isn't open then only where its source failed
/// or was garbled when it was asked, or states too many objects; one without a source stays as it was.
///
/// *Cost*: the queue, and for each generation a pool, a slot table, and for each worker a pass of either. Without another thread each link has a
/// generation of its own.
pub fn serve_all<W: Threads + Wait + Clock + Sync, S: Source, P: Port>(
    rt: &W,
    alloc: Global,
    catalog: &mut OpenedCatalog,
    sources: &mut Vec<Slot<S>>,
    port: &mut P,
    settings: Settings,
    conns: u64,
) -> Served
    requires settings { AreSettings settings }
    requires few { length sources.old.items < 2 ^ 32 }
    requires homes { AreHomes (length sources.old.items) (map home_of catalog.old.entries) }
    requires at_hand { All (IsAtHand S.at_hand sources.old.items) catalog.old.entries }
    requires empty { All (λ slot. slot.feeder ≡ None) sources.old.items }
    ensures serves { ServesLinks conns (P.links port.old) (P.links port.new) (P.faults port.old) (P.faults port.new) result }
    ensures closed { P.closed port.new ≡ P.closed port.old }
    ensures calls { AsksForLinks conns (P.calls port.old) (P.calls port.new) result }
    ensures left { Leaves S.list S.counts S.calls S.at_hand sources.old.items sources.new.items catalog.old catalog.new }
    ensures at_hand { result ≢ Served.Memory → All (IsAtHand S.at_hand sources.new.items) catalog.new.entries }
{
    let Ok(queue) = LinkQueue::make(alloc, settings.workers) else {
        return Served::Memory;
    };
    let mut pause = MIN_PAUSE;
    queue.resume(rt, lifetime_of(catalog.entries(), pause));
    let mut taken = 0;
    while taken < conns {
        let Round { asked, served } = serve_round(
            rt,
            alloc,
            catalog,
            sources,
            port,
            &queue,
            settings,
            conns - taken,
            &mut pause,
        );
        match served {
            Served::Ended { conns: more } => {
                taken += more;
                if more < asked {
                    return Served::Ended { conns: taken };
                }
            }
            Served::PortFault => return Served::PortFault,
            Served::Memory => return Served::Memory,
        }
    }
    Served::Ended { conns: taken }
}
