//! Where dials come from.

ghost use Rattle.std.specs.Prelude.{◌≡◌};

use std::net::{Net, TcpStream};
use std::time::Clock;
use tk_io::{Dial, NetDial};

/// What makes dials, one for each source.
///
/// `makes` holds of what makes dials and of a dial that it may make.
pub trait DialMaker {
    type D: Dial + Drop;

    ghost makes: { Self → Self.D → Type 0 };

    /// A dial of which no call failed yet. Takes no memory.
    fn make_dial(&self) -> Self::D
        ensures made { makes self.now result }
        ensures fresh { Self.D.faults result ≡ 0 };
}

/// The network makes dials to its hosts.
impl<R: Net<Stream = TcpStream> + Clock + Copy + Drop> DialMaker for R {
    ghost use Rattle.std.specs.Prelude.{⊤};

    type D = NetDial<R, R>;

    ghost makes = { λ _ _. ⊤ };

    fn make_dial(&self) -> NetDial<R, R> {
        NetDial::make(*self, *self)
    }
}
