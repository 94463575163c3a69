//! What links are asked for.

ghost use Rattle.std.specs.Prelude.{◌≡◌, ℕ, ◌+◌, List, [], ◌∷◌, Option, None, IfOk, OnErr};
ghost use Rattle.tk_io.specs.Calls.{HostPort, with_more};
ghost use Rattle.tk_io.specs.Faults.{HasCause};
ghost use Rattle.tk_io.specs.Links.{Closed, GivesFirst, IsFresh, ClosesOne, AddsFaults};

use super::{Failed, Link};

/// What makes links to a host, as the connections of a client.
///
/// `links` is the bytes of the links that are still to come, where the dial tells them, `closed` the
/// links that were given back, where it tells them, and `faults` counts the calls that failed, those of
/// the links too once they were given back. A count stands still at the last value of its type.
/// `may_close` holds where a link may be given back. `dialled` are the hosts and ports that a link was
/// asked for, one for each call of `dial`, in their order, where the dial tells them.
pub trait Dial {
    type L: Link + Drop;

    ghost links: { Self → Option (List (List ℕ)) };

    ghost closed: { Self → Option (List Closed) };

    ghost faults: { Self → ℕ };

    ghost may_close: { Self → Type 0 };

    ghost dialled: { Self → Option (List HostPort) } = { λ _. None };

    /// A link to the host's port of this number. A call that fails gives no link.
    fn dial(&mut self, host: &str, port: u16) -> Result<Self::L, Failed>
        ensures given { IfOk result (λ link.
            GivesFirst (links self.old) (links self.new) (Self.L.left link) (Self.L.held link)) }
        ensures fresh { IfOk result (λ link.
            IsFresh (Self.L.held link) (Self.L.Intake.faults link) (Self.L.Sink.faults link) (Self.L.pieces link)) }
        ensures out { IfOk result (λ link. may_close self.new) }
        ensures kept { OnErr result (links self.new ≡ links self.old) }
        ensures closed { closed self.new ≡ closed self.old }
        ensures dialled { dialled self.new ≡ with_more (record { host = host.now; port = port } ∷ []) (dialled self.old) }
        ensures cause { HasCause (faults self.old) (faults self.new) result };

    /// Takes a link back that it gave, which ends it, and counts the calls of the link that failed.
    fn hang_up(&mut self, link: Self::L)
        requires { may_close self.old }
        ensures links { links self.new ≡ links self.old }
        ensures closed { ClosesOne (closed self.old) (closed self.new) (record {
          taken = Self.L.held link;
          read_faults = Self.L.Intake.faults link;
          write_faults = Self.L.Sink.faults link;
          pieces = Self.L.pieces link;
        }) }
        ensures dialled { dialled self.new ≡ dialled self.old }
        ensures faults { AddsFaults (faults self.old) (faults self.new) (Self.L.Intake.faults link + Self.L.Sink.faults link) };

    /// How many calls failed, those of the links that were given back among them.
    fn fault_count(&self) -> u64
        ensures { result ≡ faults self.now };
}
