//! Why a request gets another reply than its answer.

ghost use Rattle.std.specs.Prelude.{◌≡◌};
ghost use Rattle.wire.specs.Refusals.{status_of, refusal_of};

use super::WireFault;
use http::StatusCode;

/// Why a request gets another reply than its answer, and its status.
#[derive(Clone, Copy, Debug, PartialEq, Eq)]
pub enum Refusal {
    /// 431: the head has more bytes or more lines than a request may have.
    TooLarge,
    /// 400: the bytes are no request, the target doesn't begin with `/`, or the query part lacks what the
    /// route wants.
    BadRequest,
    /// 404: the path is no route.
    NotFound,
    /// 405: the method isn't GET.
    MethodNotAllowed,
    /// 500: the source of the answer failed, was garbled, or stated another version.
    SourceFailed,
    /// 503: no memory was left while the answer was made.
    NoMemory,
}

impl Refusal {
    /// The status of its reply (RFC 9110, section 15; RFC 6585 for 431).
    pub fn status(self) -> StatusCode
        ensures { result ≡ status_of self }
    {
        match self {
            Refusal::TooLarge => StatusCode::REQUEST_HEADER_FIELDS_TOO_LARGE,
            Refusal::BadRequest => StatusCode::BAD_REQUEST,
            Refusal::NotFound => StatusCode::NOT_FOUND,
            Refusal::MethodNotAllowed => StatusCode::METHOD_NOT_ALLOWED,
            Refusal::SourceFailed => StatusCode::INTERNAL_SERVER_ERROR,
            Refusal::NoMemory => StatusCode::SERVICE_UNAVAILABLE,
        }
    }
}

/// Why a request is refused whose head wasn't read. Where its link failed it isn't refused: no reply can be written.
pub fn refusal_of(fault: WireFault) -> Option<Refusal>
    ensures { result ≡ refusal_of fault }
{
    match fault {
        WireFault::LinkFault => None,
        WireFault::BadMessage => Some(Refusal::BadRequest),
        WireFault::TooLong { .. } => Some(Refusal::TooLarge),
        WireFault::Memory => Some(Refusal::NoMemory),
    }
}
