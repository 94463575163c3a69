//! Why bytes weren't read as a body.

use std::alloc::AllocError;
use thiserror::Error;

/// Why bytes weren't read as a body.
#[derive(Clone, Copy, Debug, PartialEq, Eq, Error)]
pub enum JsonFault {
    /// The bytes are no JSON value, or not one that says what was asked for.
    #[error("the bytes are no such body")]
    NotABody,
    /// No memory was left.
    #[error("no memory was left")]
    Memory,
}

impl From<AllocError> for JsonFault {
    ghost use Rattle.std.specs.Prelude.{◌≡◌};
    ghost use Rattle.page_json.specs.declared.fault.JsonFault.TheVariants.{Memory};

    ghost from_gives = { λ _ fault. fault ≡ Memory };

    fn from(_: AllocError) -> JsonFault {
        JsonFault::Memory
    }
}
