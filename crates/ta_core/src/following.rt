//! What follows an access that is told.

ghost use Rattle.std.specs.Prelude.{◌≡◌, ◌<◌, ◌-◌, ◌^◌, length};
ghost use Rattle.monotone_fn.specs.Value.{value};
ghost use Rattle.monotone_fn.specs.Limits.{AreGrades};
ghost use Rattle.machine_base.specs.Base.{Holds};
ghost use Rattle.ta_core.specs.Halting.{IsFit, passes_by};
ghost use Rattle.ta_core.specs.Reading.{enough, items_after, followed};
ghost use Rattle.ta_core.specs.Shown.{reading_of};

use super::halting::Halting;
use super::progress::Progress;
use machine_base::{Base, Board};

/// Puts the first object that waits on the board, where it has all its grades.
pub(crate) fn score(base: &Base, board: &mut Board, progress: &Progress)
    requires held { Holds base.now }
    requires grades { AreGrades progress.now.grades.items }
    requires waits { length progress.now.grades.items ≡ base.now.transcript.lists → 0 < length progress.now.waiting.items }
    requires room { length progress.now.grades.items ≡ base.now.transcript.lists → length board.old.items < board.old.room }
    ensures { board.new ≡ record board.old {
      items =
          items_after (value base.now.expr) base.now.transcript.lists board.old.items (reading_of progress.now);
    } }
{
    if progress.is_scored(base.transcript.lists()) {
        let aggregate = base.expr.eval(progress.grades.as_slice());
        board.put(progress.waiting[0], aggregate, aggregate);
    }
}

/// Whether at least k on the board pass at a depth with this threshold, by their aggregates.
fn has_enough(halting: Halting, board: &Board, depth: u32, threshold: u64) -> bool
    requires { IsFit (passes_by halting) }
    ensures { result ≡ enough (record { k = board.now.k; passes = passes_by halting }) depth threshold board.now.items }
{
    match board.kth() {
        Some(low) => halting.passes(depth, threshold, low),
        None => false,
    }
}

/// What follows an access that is told: the object that has all its grades waits no more, and a whole
/// row is the last one, where the machine halts, or makes room for the next.
pub(crate) fn follow(halting: Halting, base: &Base, board: &Board, progress: &mut Progress)
    requires fair { IsFit (passes_by halting) }
    requires held { Holds base.now }
    requires bottoms { AreGrades progress.old.bottoms.items }
    requires same { length progress.old.bottoms.items ≡ length progress.old.objects.items }
    requires waits { length progress.old.grades.items ≡ base.now.transcript.lists → 0 < length progress.old.waiting.items }
    requires deep { progress.old.depth < 2 ^ 32 - 1 }
    ensures { reading_of progress.new
        ≡ followed (value base.now.expr) (record { k = board.now.k; passes = passes_by halting }) base.now.transcript.lists board.now.items (reading_of progress.old) }
{
    let lists = base.transcript.lists();
    progress.settle(lists);
    if !progress.is_whole(lists) {
        return;
    }
    let threshold = base.expr.eval(progress.bottoms.as_slice());
    if has_enough(halting, board, progress.depth, threshold) {
        progress.done = true;
        return;
    }
    let next = progress.depth + 1;
    *progress = Progress::at(next);
}
