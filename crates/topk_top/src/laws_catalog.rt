//! Laws of runs of query lines.

ghost use Rattle.std.specs.Prelude.{ℕ, List, All};
ghost use Rattle.ranked_list.specs.declared.row.Row.{Row};
ghost use Rattle.query_run.specs.Causes.{IsRefusedForCause};
ghost use Rattle.query_admission.specs.declared.line_outcome.LineOutcome.{LineOutcome as AnyOutcome};
ghost use Rattle.catalog_run.specs.Runs.{CatalogRun, IsRun};
ghost use Rattle.catalog_run.specs.Cut.{RanOutOfMemory};
ghost use Rattle.topk_top.specs.ToldTables.{AllBecome, ShelfTellsTables, view_told};
ghost use Rattle.topk_top.specs.Answers.{IsOneOverTold, IsRightLine};
ghost use Rattle.topk_top.specs.Failures.{HasFailure, RefusesFew};
ghost use Rattle.topk_top.specs.Giving.{CutLinesHaveTables, EachGaveSparingly, EachHadGivenSparingly, EachPlaceHadRisen, EachPlaceRose, LinesHaveTables};

use batch_result::queries_are_on_their_runs;

/// Where the sources that the lines want tell their lists, the lists of each line that nothing refuses before it runs form a table, and
/// nothing fails, each line comes to the one outcome that it has over these lists: it is refused for the first of the causes that holds,
/// or answered by the one answer of its query. The settings don't change it.
pub fn told_tables_give_the_one_outcome()
    ensures { (r : CatalogRun) (outcomes : List AnyOutcome) → IsRun r outcomes → ShelfTellsTables r
        → AllBecome (view_told r.catalog r.lists r.versions) 1 r.lines outcomes }
{
    queries_are_on_their_runs();
}

/// Whatever the sources told, each answer is right for its query: some table agrees with its transcript, and on every table that agrees it
/// is the one answer of the method of its lists: k objects that none outside beats, or by no more than the guarantee that is printed. Each query
/// that is refused in running has its cause in what was read of its lists, as it stands at the end.
pub fn outcomes_are_right()
    ensures answers { (r : CatalogRun) (outcomes : List AnyOutcome) → IsRun r outcomes → All (IsRightLine r) outcomes }
    ensures refusals { (r : CatalogRun) (outcomes : List AnyOutcome) → (run : IsRun r outcomes) → All (IsRefusedForCause run.ran.ran.states) run.ran.ran.queries }
{}

/// Whatever else failed in the run, an answer over lists that the shelf tells, and that form a table, is the one answer over them.
pub fn answers_over_told_tables_are_the_one()
    ensures { (r : CatalogRun) (outcomes : List AnyOutcome) → IsRun r outcomes → All (IsOneOverTold r) outcomes }
{}

/// A line is refused for a list that wasn't opened only where the count behind that rose at the list's place on the shelf while the sources
/// were opened, and for a list that failed, was garbled or was replaced only where it rose there while the lines ran; or it stands at its last value.
/// A line that is refused for a replaced list names the version that the list had when it was opened.
pub fn failed_lists_have_causes()
    ensures { (r : CatalogRun) (outcomes : List AnyOutcome) → (run : IsRun r outcomes) → All (HasFailure r run.mid) outcomes }
{}

/// One failure isn't for ever. The lines that are refused because calls of a place's sources failed are no more than the workers times such
/// calls, and so are those that are refused because calls were answered by garbled data, unless the count of these stands at its last value.
pub fn failures_refuse_few_lines()
    ensures { (r : CatalogRun) (outcomes : List AnyOutcome) → IsRun r outcomes → (place : List ℕ) → RefusesFew r outcomes place }
{}

/// However many the lines, a source gives no row beyond the reach of the greatest depth to which one of them asked, and no more grades than
/// there are objects whose grades were asked for, from when it is opened until it is put back; and one whose list can't be read in order, by
/// its entry of the catalog, gives no row. Where the sources tell lists that form tables
/// for the lines that ran, the depth is at most the greatest to which the one run of a line reads the source, and the grades are no more than
/// the random accesses that these runs make to it; where each line that reads the source is answered, the same holds of the transcripts of
/// the answers. Where the shelf tells tables and nothing fails, the sources do so. What the shelf counts of a place rises by what the open
/// sources of the place gave, and by no more.
pub fn sources_give_what_is_asked()
    ensures sources { (r : CatalogRun) (outcomes : List AnyOutcome) → (run : IsRun r outcomes) → EachGaveSparingly r outcomes run }
    ensures tables { (r : CatalogRun) (outcomes : List AnyOutcome) → (run : IsRun r outcomes) → ShelfTellsTables r
        → (lists : List (List Row)) × LinesHaveTables r outcomes run lists }
    ensures places { (r : CatalogRun) (outcomes : List AnyOutcome) → (run : IsRun r outcomes) → EachPlaceRose r outcomes run }
{}

/// Where a run ran out of memory, what was read by then is within the same bounds: no source gave a row beyond the reach of the greatest
/// depth to which a query asked that had begun, nor more grades than there are objects whose grades were asked for; one whose list can't be read
/// in order gave no row; and where the sources tell lists that form tables for the lines that were admitted, no more than the one runs of these lines
/// read. Where the shelf tells tables and nothing fails, the sources do so. What the shelf counts of a place rose by what the open sources of the place
/// gave.
pub fn cut_runs_give_what_is_asked()
    ensures sources { (r : CatalogRun) → (cut : RanOutOfMemory r) → EachHadGivenSparingly r cut }
    ensures tables { (r : CatalogRun) → (cut : RanOutOfMemory r) → ShelfTellsTables r → (lists : List (List Row)) × CutLinesHaveTables r cut lists }
    ensures places { (r : CatalogRun) → (cut : RanOutOfMemory r) → EachPlaceHadRisen r cut }
{}
