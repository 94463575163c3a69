//! The board, and when the machine stops.

ghost use Rattle.std.specs.Prelude.{◌≡◌, ◌≤◌, length, drop};
ghost use Rattle.monotone_fn.specs.Value.{value};
ghost use Rattle.topk_theory.specs.Bounds.{threshold};
ghost use Rattle.topk_theory.specs.Transcript.{seen_objects};
ghost use Rattle.machine_base.specs.Base.{Holds};
ghost use Rattle.restricted_core.specs.Course.{items_with, are_enough, stops_by};

use machine_base::{Base, Board};

/// Puts the seen objects from a place on, all grades of which are known, on the board, each with its aggregate as both bounds.
///
/// *Cost*: for each of these objects one evaluation and `Board::put`. Takes no memory.
pub(crate) fn put_new(base: &Base, board: &mut Board, place: u32)
    requires held { Holds base.now }
    requires room { base.now.room ≤ board.old.room }
    requires few { length board.old.items ≤ place }
    ensures { board.new ≡ record board.old {
      items =
          items_with (value base.now.expr) base.now.transcript.lists base.now.transcript.accesses (drop place (seen_objects base.now.transcript.accesses)) board.old.items;
    } }
{
    for at in place..base.transcript.seen() {
        let object = base.transcript.object_at(at);
        let aggregate = base.transcript.low(&base.expr, object);
        board.put(object, aggregate, aggregate);
    }
}

/// The value at the bottoms of the lists; that of a list that can't be read in order is the greatest grade there is.
fn threshold(base: &Base) -> u64
    requires { Holds base.now }
    ensures { result ≡ threshold (value base.now.expr) base.now.transcript.lists base.now.transcript.accesses }
{
    base.expr.eval(base.transcript.bottoms())
}

/// Whether at least k on the board have an aggregate of at least the threshold.
fn has_enough(base: &Base, board: &Board) -> bool
    requires { Holds base.now }
    ensures { result ≡ are_enough (value base.now.expr) board.now.k base.now.transcript.lists base.now.transcript.accesses board.now.items }
{
    let threshold = threshold(base);
    match board.kth() {
        Some(low) => threshold <= low,
        None => false,
    }
}

/// Whether the machine may stop at the end of a depth: all objects are seen, or enough of them reach the threshold.
///
/// *Cost*: one evaluation.
pub(crate) fn may_stop(base: &Base, board: &Board) -> bool
    requires { Holds base.now }
    ensures { result
        ≡ stops_by (value base.now.expr) board.now.k base.now.transcript.lists base.now.transcript.count base.now.transcript.accesses board.now.items }
{
    if base.transcript.seen() == base.transcript.count() {
        return true;
    }
    has_enough(base, board)
}
