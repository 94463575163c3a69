//! What is certain at a stage: accesses that the run makes, however the rest of the table is.

ghost use Rattle.std.specs.Prelude.{◌≡◌, ◌<◌};
ghost use Rattle.topk_theory.specs.Threshold.{item_objects};
ghost use Rattle.ca_core.specs.Certain.{left_at};

use super::stage::Stage;
use access_log::{Item, Transcript};
use machine_base::{Need, first_unknown};

/// What is left of a list at a stage, where these are the first k once they are read: the row at the depth that is read, the unknown
/// grade of the choice, or that of the first of the first k, from a place on, that has one; or nothing.
pub(crate) fn left(transcript: &Transcript, first: &Vec<Item>, stage: Stage, list: u8) -> Need
    requires { list < transcript.now.lists }
    ensures { result ≡ left_at transcript.now.accesses (item_objects first.now.items) stage list }
{
    match stage {
        Stage::Row { depth, .. } => Need::Row { list, depth },
        Stage::Choice { object, .. } => first_unknown(transcript, [object].as_slice(), 0, list),
        Stage::Finish(ask) => first_unknown(transcript, first.as_slice(), ask.place, list),
        Stage::Done => Need::Done,
    }
}
