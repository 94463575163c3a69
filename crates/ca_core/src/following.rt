//! What follows an access that is told.

ghost use Rattle.std.specs.Prelude.{◌≡◌, ◌≤◌, ◌<◌, vec_capacity};
ghost use Rattle.monotone_fn.specs.Value.{value};
ghost use Rattle.machine_base.specs.Asking.{next_unknown};
ghost use Rattle.machine_base.specs.Base.{Holds};
ghost use Rattle.ca_core.specs.Course.{block_ended, grade_taken, row_ended, moved, MayMove, MayMoveAt};
ghost use Rattle.ca_core.specs.Seen.{KeepsSeen};

use super::late_seen::LateSeen;
use super::stage::Stage;
use access_log::Item;
use machine_base::{Base, ask_from, next_unknown};

/// The end of a depth: the finish where all is quiet, else the next depth.
fn end_block(base: &Base, late: &mut LateSeen, first: &mut Vec<Item>, depth: u32) -> Stage
    requires held { Holds base.now }
    requires seen { KeepsSeen base.now late.old }
    requires may { MayMove base.now depth first.old.items (vec_capacity first.old) }
    ensures moved { record { stage = result; first = first.new.items } ≡ block_ended (value base.now.expr) base.now.k base.now.transcript.lists
        base.now.transcript.count base.now.transcript.accesses depth first.old.items }
    ensures seen { KeepsSeen base.now late.new }
    ensures capacity { vec_capacity first.new ≡ vec_capacity first.old }
{
    if !late.is_quiet(base) {
        return Stage::Row {
            list: 0,
            depth: depth + 1,
        };
    }
    late.bounds.first_items(&base.expr, &base.transcript, first);
    Stage::finish(ask_from(&base.transcript, first.as_slice(), 0))
}

/// The next unknown grade of the object that was chosen, or the end of the depth.
fn take_grade(
    base: &Base,
    late: &mut LateSeen,
    first: &mut Vec<Item>,
    object: u32,
    depth: u32,
) -> Stage
    requires held { Holds base.now }
    requires seen { KeepsSeen base.now late.old }
    requires may { MayMove base.now depth first.old.items (vec_capacity first.old) }
    ensures moved { record { stage = result; first = first.new.items } ≡ grade_taken (value base.now.expr) base.now.k base.now.transcript.lists
        base.now.transcript.count base.now.transcript.accesses depth first.old.items object
        (next_unknown base.now.transcript.lists base.now.transcript.accesses object) }
    ensures seen { KeepsSeen base.now late.new }
    ensures capacity { vec_capacity first.new ≡ vec_capacity first.old }
{
    match next_unknown(&base.transcript, object) {
        Some(list) => Stage::Choice {
            list,
            object,
            depth,
        },
        None => end_block(base, late, first, depth),
    }
}

/// The end of a row: a random phase where its depth is a multiple of the phase length and an object may be asked
/// for, else the end of the depth.
fn end_row(base: &Base, phase: u32, late: &mut LateSeen, first: &mut Vec<Item>, depth: u32) -> Stage
    requires held { Holds base.now }
    requires seen { KeepsSeen base.now late.old }
    requires phase { 1 ≤ phase }
    requires may { MayMove base.now depth first.old.items (vec_capacity first.old) }
    ensures moved { record { stage = result; first = first.new.items } ≡ row_ended (value base.now.expr) base.now.k phase base.now.transcript.lists
        base.now.transcript.count base.now.transcript.accesses depth first.old.items }
    ensures seen { KeepsSeen base.now late.new }
    ensures capacity { vec_capacity first.new ≡ vec_capacity first.old }
{
    if depth % phase != 0 {
        return end_block(base, late, first, depth);
    }
    let bound = late.bounds.bound();
    match late.highs.choose(&base.expr, &base.transcript, bound) {
        Some(object) => take_grade(base, late, first, object, depth),
        None => end_block(base, late, first, depth),
    }
}

/// What follows the access that was next.
pub(crate) fn follow(
    base: &Base,
    phase: u32,
    late: &mut LateSeen,
    first: &mut Vec<Item>,
    stage: Stage,
) -> Stage
    requires held { Holds base.now }
    requires seen { KeepsSeen base.now late.old }
    requires phase { 1 ≤ phase }
    requires may { MayMoveAt base.now stage first.old.items (vec_capacity first.old) }
    ensures moved { record { stage = result; first = first.new.items } ≡ moved (value base.now.expr) base.now.k phase base.now.transcript.lists
        base.now.transcript.count base.now.transcript.accesses stage first.old.items }
    ensures seen { KeepsSeen base.now late.new }
    ensures capacity { vec_capacity first.new ≡ vec_capacity first.old }
{
    match stage {
        Stage::Row { list, depth } => {
            if list + 1 < base.transcript.lists() {
                return Stage::Row {
                    list: list + 1,
                    depth,
                };
            }
            end_row(base, phase, late, first, depth)
        }
        Stage::Choice { object, depth, .. } => take_grade(base, late, first, object, depth),
        Stage::Finish(ask) => Stage::finish(ask_from(
            &base.transcript,
            first.as_slice(),
            ask.place,
        )),
        Stage::Done => Stage::Done,
    }
}
