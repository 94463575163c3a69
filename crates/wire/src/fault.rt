//! Why a message wasn't read or written.

use std::alloc::AllocError;
use thiserror::Error;

/// Why a message wasn't read or written.
#[derive(Clone, Copy, Debug, Error, PartialEq, Eq)]
pub enum WireFault {
    /// A call of the link failed, and its count of faults has gone up.
    #[error("the link failed")]
    LinkFault,
    /// The bytes are no message, or ended before the message was whole.
    #[error("the bytes are no message")]
    BadMessage,
    /// More came than the limit allows, or was stated: bytes of a head, of a chunk's line or of a body,
    /// or header lines.
    #[error("more than {limit} came")]
    TooLong { limit: u32 },
    /// No memory was left.
    #[error("no memory was left")]
    Memory,
}

impl From<AllocError> for WireFault {
    ghost use Rattle.std.specs.Prelude.{◌≡◌};
    ghost use Rattle.wire.specs.declared.fault.WireFault.TheVariants.{Memory};

    ghost from_gives = { λ _ fault. fault ≡ Memory };

    fn from(_: AllocError) -> WireFault {
        WireFault::Memory
    }
}
