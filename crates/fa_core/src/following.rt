//! What follows an access that is told.

ghost use Rattle.std.specs.Prelude.{◌≡◌, ◌≤◌, ◌+◌, drop};
ghost use Rattle.topk_theory.specs.Transcript.{seen_objects};
ghost use Rattle.machine_base.specs.Asking.{ask_from};
ghost use Rattle.machine_base.specs.Base.{Holds};
ghost use Rattle.fa_core.specs.Course.{asking, common_after, row_followed};

use super::stage::Stage;
use machine_base::{Base, ask_from, next_unknown};
use topk_base::MAX_OBJECTS;

/// How many objects every list has given, after a row with this object: one more where its grades are all known now,
/// since only rows were read. No pass over the objects.
///
/// *Cost*: a look-up, and a look at the object's grade in each list.
pub(crate) fn common_after(base: &Base, object: u32, common: u32) -> u32
    requires { common ≤ MAX_OBJECTS }
    ensures { result ≡ common_after base.now.transcript.lists base.now.transcript.accesses object common }
{
    if next_unknown(&base.transcript, object).is_none() {
        return common + 1;
    }
    common
}

/// The next unknown grade of the seen objects from a place on, in the order of first sight; the end where there is none.
pub(crate) fn ask_on(base: &Base, place: usize) -> Stage
    ensures { result ≡ asking (ask_from base.now.transcript.lists base.now.transcript.accesses (drop place (seen_objects base.now.transcript.accesses)) place) }
{
    Stage::asking(ask_from(&base.transcript, &base.transcript, place))
}

/// What follows the row of a list at a depth, after which every list has given so many objects: the next list, and after
/// the last one the next depth, until these objects are k; then the unknown grades of all that were seen.
pub(crate) fn follow_row(base: &Base, list: u8, depth: u32, common: u32) -> Stage
    requires held { Holds base.now }
    requires list { list + 1 ≤ base.now.transcript.lists }
    requires deep { depth ≤ MAX_OBJECTS }
    ensures { result ≡ row_followed base.now.k base.now.transcript.lists base.now.transcript.accesses list depth common }
{
    if list + 1 < base.transcript.lists() {
        return Stage::Row {
            list: list + 1,
            depth,
            common,
        };
    }
    if common < base.k {
        return Stage::Row {
            list: 0,
            depth: depth + 1,
            common,
        };
    }
    ask_on(base, 0)
}
