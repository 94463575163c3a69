//! What follows an access that is told.

ghost use Rattle.restricted_core.specs.Kept.{Keeps, IsRowTold, IsRowOver};

use super::scoring::{may_stop, put_new};
use super::sorted_lists::next_sorted;
use super::stage::Stage;
use machine_base::{Base, Board, ask_from};

/// What follows the rows of a depth, once the seen objects before a place have all their grades: the next unknown grade of the
/// others; and where there is none, the end or the row of the first list at the next depth.
///
/// *Cost*: a walk over the seen objects from the place to the next one with an unknown grade, `put_new` and `may_stop`.
pub(crate) fn ask_or_end(
    base: &Base,
    board: &mut Board,
    sorted: &[bool],
    depth: u32,
    whole: u32,
    place: usize,
) -> Stage
    requires { IsRowOver base.now sorted.now board.old depth whole place }
    ensures { Keeps base.now sorted.now board.new result }
{
    if let Some(ask) = ask_from(&base.transcript, &base.transcript, place) {
        return Stage::Asking { ask, depth, whole };
    }
    put_new(base, board, whole);
    if may_stop(base, board) {
        return Stage::Done;
    }
    match next_sorted(sorted, 0) {
        Some(list) => Stage::Row {
            list,
            depth: depth + 1,
            whole: base.transcript.seen(),
        },
        None => unreachable!(),
    }
}

/// What follows the row of a list at a depth: the next list that can be read in order, and after the last one what is asked.
pub(crate) fn follow_row(
    base: &Base,
    board: &mut Board,
    sorted: &[bool],
    list: u8,
    depth: u32,
    whole: u32,
) -> Stage
    requires { IsRowTold base.now sorted.now board.old list depth whole }
    ensures { Keeps base.now sorted.now board.new result }
{
    match next_sorted(sorted, list + 1) {
        Some(next) => Stage::Row {
            list: next,
            depth,
            whole,
        },
        None => ask_or_end(base, board, sorted, depth, whole, whole as usize),
    }
}
