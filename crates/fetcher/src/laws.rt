//! What the turns of a fetcher mean: laws on those of a source that tells its list, and one on how much is fetched until the pool closes.

ghost use Rattle.std.specs.Prelude.{◌≡◌, ◌≤◌, ℕ, Some, List, []};
ghost use Rattle.ranked_list.specs.declared.row.Row.{Row};
ghost use Rattle.turn_lock.specs.declared.known.Known.{Known};
ghost use Rattle.source_state.specs.declared.entry.LogEntry.{LogEntry};
ghost use Rattle.source_state.specs.declared.entry.SourceFault.TheVariants.{Repeated, Clash};
ghost use Rattle.source_state.specs.Log.{fault_in};
ghost use Rattle.source_state.specs.State.{State, facts_of};
ghost use Rattle.source_state.specs.Looking.{plan_of};
ghost use Rattle.source_api.specs.declared.counts.Counts.{Counts};
ghost use Rattle.source_pool.specs.Closed.{IsClosed};
ghost use Rattle.fetcher.specs.declared.turned.Fetched.{Fetched};
ghost use Rattle.fetcher.specs.Chaining.{Moment, IsFetched};
ghost use Rattle.fetcher.specs.Metering.{IsMetered, IsCalledFor};
ghost use Rattle.fetcher.specs.Telling.{TellsOf};

/// However many turns a fetcher takes of a source that tells its list, the log tells of that list alone: its rows are how the list
/// begins, each grade that came is the list's, the list hasn't an object that was missed, and what is at fault is the list's own. A log
/// that was empty tells of the list.
pub fn turns_tell_the_list()
    ensures on { (page ahead : ℕ) (list : List Row) (before after : Moment) → IsFetched page ahead (Some list) before after
        → TellsOf list before.known.seen → TellsOf list after.known.seen }
    ensures begins { (page ahead : ℕ) (list : List Row) (before after : Moment) → IsFetched page ahead (Some list) before after
        → before.known.seen ≡ [] → TellsOf list after.known.seen }
{}

/// A source that tells its list, in which no object comes twice, gives no row whose object came before, and no grade other than that of
/// the row: neither is ever the row fault.
pub fn told_lists_neither_repeat_nor_clash()
    ensures repeated { (list : List Row) (log : List LogEntry) (object place : ℕ) → TellsOf list log → ¬ (fault_in log ≡ Some (Repeated object place)) }
    ensures clash { (list : List Row) (log : List LogEntry) (object sorted random : ℕ) → TellsOf list log
        → ¬ (fault_in log ≡ Some (Clash object sorted random)) }
{}

/// What a fetcher fetched until its pool closed was called for: its rows are within the reach of the greatest depth that any query wanted,
/// and the grades are no more than the objects that the queries asked for.
pub fn what_is_fetched_is_called_for()
    ensures { (page ahead : ℕ) (fetched : Fetched) (counts now : Counts) (before after pass : Known LogEntry) (state : State) → 1 ≤ page
        → IsMetered page ahead fetched counts now before after → IsClosed after pass state → IsCalledFor page ahead fetched before state }
{}

/// What a turn of the lock gave tells the plan of that turn: two states of the same facts have the same plan.
pub fn what_a_turn_gave_tells_its_plan()
    ensures { (page ahead : ℕ) (one other : State) → facts_of one ≡ facts_of other → plan_of one page ahead ≡ plan_of other page ahead }
{}
