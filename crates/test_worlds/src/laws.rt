//! Laws of worlds.

ghost use Rattle.std.specs.Prelude.{◌≡◌, ◌≤◌, ℕ, Some, List, All, slice_get};
ghost use Rattle.ranked_list.specs.declared.row.Row.{Row};
ghost use Rattle.source_api.specs.declared.source.FailKind.{FailKind};
ghost use Rattle.source_state.specs.declared.look.LookFault.TheVariants.{Call};
ghost use Rattle.query_core.specs.declared.ready.Ready.{Ready};
ghost use Rattle.query_run.specs.declared.ended.Refusal.TheVariants.{Look};
ghost use Rattle.query_run.specs.declared.running_query.RunningQuery.{RunningQuery};
ghost use Rattle.test_worlds.specs.declared.step.Step.{Step};
ghost use Rattle.test_worlds.specs.Worlds.{WorldState};
ghost use Rattle.test_worlds.specs.Kept.{IsWorld, IsAfter};
ghost use Rattle.query_run.specs.Made.{IsReadyFor};
ghost use Rattle.test_worlds.specs.Made.{IsMade, AreOf};
ghost use Rattle.query_run.specs.Honest.{HasTable, IsOnItsRun};
ghost use Rattle.test_worlds.specs.Runs.{Runs, RunsHonestly};
ghost use Rattle.test_worlds.specs.Fails.{IsToldOfFail};

use topk_base::MAX_OBJECTS;

/// After every list of lawful steps, honest or not, each query's transcript is drawn from the logs of its sources and is how the run of its
/// algorithm begins on every table that agrees with it, and a refused query has its cause. Where the steps are honest for lists that
/// form a table for each query, each transcript is how the query's run on its own table begins, and a query is refused for its room
/// or for a fail alone.
pub fn each_order_gives_the_one_answer()
    ensures any { (counts : List ℕ) (readies : List Ready) (first : WorldState) (steps : List Step) (last : WorldState)
        → All (λ count. count ≤ MAX_OBJECTS) counts → All (IsReadyFor counts) readies → IsMade counts readies first
        → Runs first steps last → IsWorld last × AreOf readies last }
    ensures honest { (lists : List (List Row)) (counts : List ℕ) (readies : List Ready) (first : WorldState) (steps : List Step) (last : WorldState)
        → All (λ count. count ≤ MAX_OBJECTS) counts → All (IsReadyFor counts) readies → IsMade counts readies first → All (HasTable lists) first.queries
        → RunsHonestly lists first steps last → All (IsOnItsRun lists) last.queries }
{}

/// After every list of lawful steps, a query that is refused because a call failed was refused by one of its turns, for that kind of
/// failure and for the list of its need. It had begun to wait for this need at an earlier turn of its own, and a call of the need's source
/// failed so between the two. So no failure refuses a query that asked later.
pub fn a_failure_refuses_those_that_wait()
    ensures { (counts : List ℕ) (readies : List Ready) (first : WorldState) (steps : List Step) (last : WorldState)
        → All (λ count. count ≤ MAX_OBJECTS) counts → All (IsReadyFor counts) readies → IsMade counts readies first → Runs first steps last
        → (query : ℕ) (q : RunningQuery) (list : ℕ) (what : FailKind) → slice_get last.queries query ≡ Some q → q.refusal ≡ Some (Look list (Call what))
        → IsToldOfFail first steps last query list what }
{}

/// What was read never changes over any list of lawful steps. The log of each source is how its later log begins, no count of its
/// failures falls, and no row follows a row fault. The transcript of each query is how its later one begins, and a query that has ended
/// stays as it is.
pub fn what_was_read_stays()
    ensures { (first : WorldState) (steps : List Step) (last : WorldState) → IsWorld first → Runs first steps last → IsAfter first last }
{}
