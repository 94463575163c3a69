//! Where links come from.

ghost use Rattle.std.specs.Prelude.{◌≡◌, ℕ, List, [], ◌∷◌, Option, None, IfOk, IfSome, OnErr};
ghost use Rattle.tk_io.specs.Calls.{PortCall, accepted, with_more};
ghost use Rattle.tk_io.specs.Faults.{HasCause};
ghost use Rattle.tk_io.specs.Links.{Closed, GivesFirst, HasNone, IsFresh, ClosesOne};

use super::{Failed, Link};

/// A place where links arrive, one after another, as a listener's connections.
///
/// `links` is the bytes of the links that are still to come, where the port tells them, `closed` the
/// links that were given back, where it tells them, and `faults` counts the calls that failed. A count
/// stands still at the last value of its type. `may_close` holds where a link may be given back. `calls`
/// are the calls that were made of the port, in their order, each with what came of it, where the port
/// tells them.
pub trait Port: Send {
    type L: Link + Send + Drop;

    ghost links: { Self → Option (List (List ℕ)) };

    ghost closed: { Self → Option (List Closed) };

    ghost faults: { Self → ℕ };

    ghost may_close: { Self → Type 0 };

    ghost calls: { Self → Option (List PortCall) } = { λ _. None };

    /// Begins to listen at the port of this number.
    fn listen(&mut self, number: u16) -> Result<(), Failed>
        ensures links { links self.new ≡ links self.old }
        ensures closed { closed self.new ≡ closed self.old }
        ensures calls { calls self.new ≡ with_more (PortCall.Listened number ∷ []) (calls self.old) }
        ensures cause { HasCause (faults self.old) (faults self.new) result };

    /// The next link, or None where the port has ended. A call that fails gives no link.
    fn accept(&mut self) -> Result<Option<Self::L>, Failed>
        ensures given { IfOk result (λ given. IfSome given (λ link.
            GivesFirst (links self.old) (links self.new) (Self.L.left link) (Self.L.held link))) }
        ensures fresh { IfOk result (λ given. IfSome given (λ link.
            IsFresh (Self.L.held link) (Self.L.Intake.faults link) (Self.L.Sink.faults link) (Self.L.pieces link))) }
        ensures out { IfOk result (λ given. IfSome given (λ link. may_close self.new)) }
        ensures ended { IfOk result (λ given. given ≡ None → HasNone (links self.old) × (links self.new ≡ links self.old)) }
        ensures kept { OnErr result (links self.new ≡ links self.old) }
        ensures closed { closed self.new ≡ closed self.old }
        ensures calls { calls self.new ≡ with_more (accepted result ∷ []) (calls self.old) }
        ensures cause { HasCause (faults self.old) (faults self.new) result };

    /// Takes a link back that it gave, which ends it.
    fn hang_up(&mut self, link: Self::L)
        requires { may_close self.old }
        ensures links { links self.new ≡ links self.old }
        ensures closed { ClosesOne (closed self.old) (closed self.new) (record {
          taken = Self.L.held link;
          read_faults = Self.L.Intake.faults link;
          write_faults = Self.L.Sink.faults link;
          pieces = Self.L.pieces link;
        }) }
        ensures calls { calls self.new ≡ with_more (PortCall.TookBack ∷ []) (calls self.old) }
        ensures faults { faults self.new ≡ faults self.old };
}
