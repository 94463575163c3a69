//! Laws of batches whose sources tell their lists.

ghost use Rattle.std.specs.Prelude.{◌≡◌, ◌<◌, ℕ, Some, List, All, length, map};
ghost use Rattle.std.specs.List.{AllZip};
ghost use Rattle.ranked_list.specs.declared.row.Row.{Row};
ghost use Rattle.query_run.specs.Honest.{HasTable, IsOnItsRun};
ghost use Rattle.ranked_list.specs.Table.{IsTable};
ghost use Rattle.topk_theory.specs.Transcript.{list_at};
ghost use Rattle.source_state.specs.State.{state_at};
ghost use Rattle.batch_result.specs.Account.{IsAnsweredOf, IsReadByGrades, IsWithin, KeepsEach, one_readings, printed_readings};
ghost use Rattle.batch_result.specs.Batches.{BatchState, BatchRun, IsBatch, size_at, use_at};
ghost use Rattle.batch_result.specs.Cut.{IsCut};
ghost use Rattle.batch_result.specs.Tables.{TellsTables, NoneMoved, EndsOver, EndsOrFails, lists_for};
ghost use Rattle.batch_result.specs.ToldFaults.{HasToldCause};

/// Where each source tells its list and none was replaced, and the lists of each query form a table, each query's transcript is how the run of its algorithm
/// over them begins, and it is refused for its room or for a call that failed alone.
pub fn queries_are_on_their_runs()
    ensures { (run : BatchRun) (batch : BatchState) → (ran : IsBatch run batch) → (lists : List (List Row)) → run.told ≡ map Some lists → NoneMoved run
        → All (HasTable lists) ran.queries → All (IsOnItsRun lists) ran.queries }
{}

/// Where moreover no call failed, by the counts of the sources, each query ends as it does alone over its lists: with the one answer, or
/// refused for a room that it states and its one run passes. Neither the settings nor the other queries change it.
pub fn told_tables_give_the_one_ending()
    ensures { (run : BatchRun) (batch : BatchState) (lists : List (List Row)) → IsBatch run batch → TellsTables run lists
        → AllZip (λ ready. EndsOver (lists_for lists ready) ready) run.readies batch.endings }
{}

/// Where each source tells its list, and the lists of each query form a table, no row of a source is wanted below the greatest depth to which
/// the one run of a query reads it, and no more rows come than its reach; no more objects are asked than these runs make random accesses
/// to it, and no more grades come. Each row that came is kept, also where a list was replaced, so the pages follow one another and none has a row twice.
pub fn told_tables_bound_the_uses()
    ensures within { (run : BatchRun) (batch : BatchState) → IsBatch run batch → (lists : List (List Row)) → run.told ≡ map Some lists
        → All (λ ready. IsTable ready.count (lists_for lists ready)) run.readies → (source : ℕ) → source < length run.sizes
        → IsWithin run.settings (size_at run.sizes source) source (one_readings lists run.readies) (use_at batch.uses source) }
    ensures kept { (run : BatchRun) (batch : BatchState) → (ran : IsBatch run batch) → (lists : List (List Row)) → run.told ≡ map Some lists
        → All (λ ready. IsTable ready.count (lists_for lists ready)) run.readies → (source : ℕ) → source < length run.sizes
        → KeepsEach (list_at lists source) (state_at ran.states source) (use_at batch.uses source) }
{}

/// Where a batch ran out of memory the same bounds hold of what was read by then: no row of a source is wanted below the greatest depth to which
/// the one run of a query reads it, no more rows come than its reach, no more objects are asked than these runs make random accesses to it, no more
/// grades come, and each row that came is kept. And whatever the sources tell, one whose list can't be read in order gave no row.
pub fn told_tables_bound_a_cut_batch()
    ensures within { (run : BatchRun) → (cut : IsCut run) → (lists : List (List Row)) → run.told ≡ map Some lists
        → All (λ ready. IsTable ready.count (lists_for lists ready)) run.readies → (source : ℕ) → source < length run.sizes
        → IsWithin run.settings (size_at run.sizes source) source (one_readings lists run.readies) (use_at cut.uses source) }
    ensures kept { (run : BatchRun) → (cut : IsCut run) → (lists : List (List Row)) → run.told ≡ map Some lists
        → All (λ ready. IsTable ready.count (lists_for lists ready)) run.readies → (source : ℕ) → source < length run.sizes
        → KeepsEach (list_at lists source) (state_at cut.states source) (use_at cut.uses source) }
    ensures alone { (run : BatchRun) → (cut : IsCut run) → (source : ℕ) → source < length run.sizes
        → All (IsReadByGrades source) run.readies → ((use_at cut.uses source).want ≡ 0) × ((use_at cut.uses source).rows ≡ 0) }
{}

/// Whatever the sources tell: where each query that reads a source is answered, no more is used of it than by the transcripts of the answers.
pub fn answers_bound_the_uses()
    ensures { (run : BatchRun) (batch : BatchState) → IsBatch run batch → (source : ℕ) → source < length run.sizes
        → AllZip (IsAnsweredOf source) run.readies batch.endings
        → IsWithin run.settings (size_at run.sizes source) source (printed_readings run.readies batch.endings) (use_at batch.uses source) }
{}

/// A source that each query asks for grades alone, since its list can't be read in order, gives no row, whatever it tells, and none is wanted of it.
pub fn lists_out_of_order_give_no_row()
    ensures { (run : BatchRun) (batch : BatchState) → IsBatch run batch → (source : ℕ) → source < length run.sizes
        → All (IsReadByGrades source) run.readies → ((use_at batch.uses source).want ≡ 0) × ((use_at batch.uses source).rows ≡ 0) }
{}

/// Where the sources tell lists that form a table for each query, no query is refused for what was read of a list: whatever failed or was replaced,
/// each is answered by the one answer over its lists, or refused for its room, for a call that failed or was answered by garbled data, or because a
/// list was replaced.
pub fn told_tables_end_or_fail()
    ensures { (run : BatchRun) (batch : BatchState) → IsBatch run batch → (lists : List (List Row)) → run.told ≡ map Some lists
        → All (λ ready. IsTable ready.count (lists_for lists ready)) run.readies
        → AllZip (λ ready. EndsOrFails (lists_for lists ready) ready) run.readies batch.endings }
{}

/// A query is refused for a row or a grade of a list that is told only where that list has this fault: its grades rise there, one is too high, or
/// it is shorter than its source states or was replaced, and never for an object that comes twice; and for an object that is missing only where the
/// list hasn't it.
pub fn told_lists_have_their_faults()
    ensures { (run : BatchRun) (batch : BatchState) → IsBatch run batch → AllZip (HasToldCause run.told) run.readies batch.endings }
{}
