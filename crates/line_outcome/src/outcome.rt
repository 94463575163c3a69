//! The outcomes of queries that ended.

ghost use Rattle.std.specs.Prelude.{◌≡◌};
ghost use Rattle.line_outcome.specs.Outcomes.{core_refusal, source_refusal, look_refusal, ended_outcome};

use cert_text::{Outcome, Refusal};
use machine_base::CoreFault;
use query_run::Ended;
use source_api::FailKind;
use source_state::{LookFault, SourceFault};

/// The refusal of a query that has no room for an object.
fn core_refusal(fault: CoreFault) -> Refusal
    ensures { result ≡ core_refusal fault }
{
    match fault {
        CoreFault::Strangers { object, count } => Refusal::Strangers { object, count },
        CoreFault::RoomFull { room } => Refusal::RoomFull { room },
    }
}

/// The refusal of a query that needs what is at fault with the source of this list.
fn source_refusal(list: u8, fault: SourceFault) -> Refusal
    ensures { result ≡ source_refusal list fault }
{
    match fault {
        SourceFault::OutOfOrder {
            place,
            before,
            after,
        } => Refusal::OutOfOrder {
            list,
            place,
            before,
            after,
        },
        SourceFault::TooHigh { place, grade } => Refusal::TooHigh { list, place, grade },
        SourceFault::Repeated { object, place } => Refusal::Repeated {
            list,
            object,
            place,
        },
        SourceFault::Clash {
            object,
            sorted,
            random,
        } => Refusal::Clash {
            list,
            object,
            sorted,
            random,
        },
        SourceFault::Above {
            object,
            grade,
            bottom,
        } => Refusal::Above {
            list,
            object,
            grade,
            bottom,
        },
        SourceFault::ShortList { stated, got } => Refusal::ShortList { list, stated, got },
        SourceFault::Moved { had, now } => Refusal::Moved { list, had, now },
    }
}

/// The refusal of a query that needs of this list what can't be had, or None for lack of memory.
fn look_refusal(list: u8, fault: LookFault) -> Option<Refusal>
    ensures { result ≡ look_refusal list fault }
{
    match fault {
        LookFault::Source(fault) => Some(source_refusal(list, fault)),
        LookFault::Missing { object } => Some(Refusal::Missing { list, object }),
        LookFault::AsksFull { kept } => Some(Refusal::AsksFull { list, kept }),
        LookFault::Call(FailKind::Failed) => Some(Refusal::Failed { list }),
        LookFault::Call(FailKind::Garbled) => Some(Refusal::Garbled { list }),
        LookFault::Call(FailKind::Memory) => None,
    }
}

/// The outcome of a query that ended so, or None for lack of memory.
pub(crate) fn ended_outcome(ended: Ended) -> Option<Outcome>
    ensures { result ≡ ended_outcome ended }
{
    match ended {
        Ended::Answered(answer) => Some(Outcome::Answered(answer)),
        Ended::Core { fault } => Some(Outcome::Refused(core_refusal(fault))),
        Ended::Look { list, fault } => match look_refusal(list, fault) {
            Some(refusal) => Some(Outcome::Refused(refusal)),
            None => None,
        },
    }
}
