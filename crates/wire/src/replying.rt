//! The reply to a request, and how a connection ends with it.

ghost use Rattle.std.specs.Prelude.{◌≡◌, option_copied};
ghost use Rattle.wire.specs.Refusals.{status_of, body_of};
ghost use Rattle.wire.specs.Replies.{Sends};
ghost use Rattle.wire.specs.Writing.{reply_text};

use super::writing::write_reason;
use super::{Kind, Refusal, write_reply};
use http::StatusCode;
use tk_io::Link;

/// How a connection ended that has one request and one reply.
#[derive(Clone, Copy, Debug, PartialEq, Eq)]
pub enum ConnEnd {
    /// The whole reply was written, with this status.
    Replied { status: u16 },
    /// A read or a write of the link failed, and its count has gone up. A front of the reply may have been
    /// written.
    LinkFault,
}

/// Writes a reply, which has no body where None is given.
pub fn send<L: Link>(link: &mut L, status: StatusCode, kind: Kind, body: Option<&[u8]>) -> ConnEnd
    ensures apart { L.Sink.aside link.new ≡ L.Sink.aside link.old }
    ensures incoming { (L.left link.new ≡ L.left link.old) × (L.Intake.faults link.new ≡ L.Intake.faults link.old) × (L.Intake.pieces link.new ≡ L.Intake.pieces link.old) }
    ensures sends { Sends (L.held link.old) (L.held link.new) (L.Sink.faults link.old) (L.Sink.faults link.new)
        status (reply_text status kind (option_copied body.entry)) result }
{
    match write_reply(link, status, kind, body) {
        Ok(()) => ConnEnd::Replied {
            status: status.as_u16(),
        },
        Err(_) => ConnEnd::LinkFault,
    }
}

/// Writes the reply of a refusal, which has no body where the method is HEAD.
pub fn refuse<L: Link>(link: &mut L, why: Refusal, is_head: bool) -> ConnEnd
    ensures apart { L.Sink.aside link.new ≡ L.Sink.aside link.old }
    ensures incoming { (L.left link.new ≡ L.left link.old) × (L.Intake.faults link.new ≡ L.Intake.faults link.old) × (L.Intake.pieces link.new ≡ L.Intake.pieces link.old) }
    ensures sends { Sends (L.held link.old) (L.held link.new) (L.Sink.faults link.old) (L.Sink.faults link.new)
        (status_of why) (reply_text (status_of why) Kind.Text (body_of is_head why)) result }
{
    let status = why.status();
    match write_reason(link, status, is_head) {
        Ok(()) => ConnEnd::Replied {
            status: status.as_u16(),
        },
        Err(_) => ConnEnd::LinkFault,
    }
}
