//! The side that has the port.

ghost use Rattle.std.specs.Prelude.{◌≡◌, [], ◌∷◌};
ghost use Rattle.tk_io.specs.Calls.{with_more};
ghost use Rattle.query_server.specs.Accepting.{Accepts, AcceptsNext, AsksFor, call_of};

use super::queue::LinkQueue;
use std::sync::Wait;
use std::time::Clock;
use tk_io::{Failed, Port};

/// How accepting the links of a port ended.
#[derive(Clone, Copy)]
pub enum Accepted {
    /// So many links were taken: all that were asked for, or all that came before the port ended.
    Ended { conns: u64 },
    /// The port failed to give a link, and its count has gone up.
    PortFault,
    /// Nobody took links any more.
    Left,
}

/// What became of the next link.
enum Next {
    /// It was put into the queue.
    Handed,
    /// It was dropped, since nobody takes links any more.
    Left,
    /// The port has ended.
    Ended,
    /// The port failed.
    Failed,
}

/// Takes the next link and puts it into the queue.
fn accept_next<R: Wait + Clock, P: Port>(rt: &R, port: &mut P, queue: &LinkQueue<P::L>) -> Next
    ensures next { AcceptsNext (P.links port.old) (P.links port.new) (P.faults port.old) (P.faults port.new) result }
    ensures closed { P.closed port.new ≡ P.closed port.old }
    ensures calls { P.calls port.new ≡ with_more (call_of result ∷ []) (P.calls port.old) }
{
    match port.accept() {
        Ok(Some(link)) => {
            if queue.put(rt, link) {
                Next::Handed
            } else {
                Next::Left
            }
        }
        Ok(None) => Next::Ended,
        Err(Failed) => Next::Failed,
    }
}

/// Takes links until so many were taken, the port has ended or failed, or nobody takes them any more.
fn accept_links<R: Wait + Clock, P: Port>(
    rt: &R,
    port: &mut P,
    queue: &LinkQueue<P::L>,
    conns: u64,
) -> Accepted
    ensures accepts { Accepts conns (P.links port.old) (P.links port.new) (P.faults port.old) (P.faults port.new) result }
    ensures closed { P.closed port.new ≡ P.closed port.old }
    ensures calls { AsksFor conns (P.calls port.old) (P.calls port.new) result }
{
    let mut taken = 0;
    while taken < conns {
        match accept_next(rt, port, queue) {
            Next::Handed => taken += 1,
            Next::Left => return Accepted::Left,
            Next::Ended => return Accepted::Ended { conns: taken },
            Next::Failed => return Accepted::PortFault,
        }
    }
    Accepted::Ended { conns: taken }
}

/// Takes at most so many links of a port, and puts each into the queue, which is ended behind the last. It ends before where the port
/// has ended or failed, or where the queue was left. The port has to listen already, and is asked for nothing but its links, and for none once
/// so many were taken or the port has ended or failed. The call may wait for ever.
///
/// A link that is put into the queue is the business of who takes it: none is given back to the port.
pub fn accept_all<R: Wait + Clock, P: Port>(
    rt: &R,
    port: &mut P,
    queue: &LinkQueue<P::L>,
    conns: u64,
) -> Accepted
    ensures accepts { Accepts conns (P.links port.old) (P.links port.new) (P.faults port.old) (P.faults port.new) result }
    ensures closed { P.closed port.new ≡ P.closed port.old }
    ensures calls { AsksFor conns (P.calls port.old) (P.calls port.new) result }
{
    let accepted = accept_links(rt, port, queue, conns);
    queue.end(rt);
    accepted
}
