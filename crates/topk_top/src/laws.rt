//! Laws of what the commands write.

ghost use Rattle.topk_top.specs.Laws.{AnswersAreFixed, CountersAreBundles};
ghost use Rattle.topk_top.specs.Limits.{AreStated};

/// Each text that `one`, `run` or `serve` writes of an answered query line spells a certificate whose figures are right, what it guarantees among
/// them, and is fixed: `judge` says `fixes` of it, and nothing else, where it is no longer than an input may be. Of a run that is each line's part
/// of what it writes, of a server the body of a reply. Of both it is said for objects of 32 bits and versions of 64: in the code they are `u32` and
/// `u64`.
pub fn answers_are_fixed()
    ensures { AnswersAreFixed }
{}

/// What stands below the first line of a beaten answer is a bundle: the names of the query's lists, a table over
/// objects of 32 bits, and one line of query text.
pub fn counters_are_bundles()
    ensures { CountersAreBundles }
{}

/// The limits that the contracts cite are these numbers: at most 200,000 objects, grades up to 1,000,000, and so on.
pub fn limits_are_stated()
    ensures { AreStated }
{}
