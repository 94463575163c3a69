//! Laws of what a run of query lines comes to. A run ends as `EndsRunning` says, and so does each call of `top` whose words are those of a
//! run.

ghost use Rattle.topk_top.specs.RunLaws.{CutRunsAreSparing, RepliesAreSparing, SettingsChangeNothing, ToldRunsWriteTheOne, WrongCatalogsAreRefused};

use super::laws_catalog::{
    cut_runs_give_what_is_asked, failures_refuse_few_lines, sources_give_what_is_asked,
    told_tables_give_the_one_outcome,
};

/// Where the shelf tells a text of the catalog's place that is no catalog, the run is refused and the text that it writes
/// names the first record at fault, unless a call failed, whose count rose, or memory ran out.
pub fn wrong_catalogs_are_refused()
    ensures { WrongCatalogsAreRefused }
{}

/// Where the catalog's text, the input and the lists of the sources that the lines want are told with their versions, these form a table for
/// each line, and no call fails, a run writes the one text: that of the first refusal that holds of each line, or of the one
/// answer of its query by the method of its lists, for which the catalog tells which of them can be read in order. The lines come to no other
/// text over these lists, and to no other status.
pub fn told_runs_write_the_one_text()
    ensures { ToldRunsWriteTheOne }
{
    told_tables_give_the_one_outcome();
}

/// Two such runs of the same lines over the same lists at the same versions write the same text and end with the same status, however many workers
/// run the queries, whatever the rows of a page are and what is read ahead, and in whatever order the threads go on.
pub fn settings_change_nothing()
    ensures { SettingsChangeNothing }
{
    told_runs_write_the_one_text();
}

/// However many the lines of a run, no source gives a row beyond the reach of the greatest depth to which one of them asked, nor more
/// grades than there are objects whose grades were asked for, and none gives a row whose list can't be read in order. Over told tables
/// these are at most the greatest depth to which the one run of a line reads the source, and the random accesses of all these runs to it.
/// And one failure isn't for ever: the lines that are refused because calls of a place's sources failed, or were answered by garbled data,
/// are no more than the workers times such calls, unless their count stands at its last value.
pub fn replies_are_sparing()
    ensures { RepliesAreSparing }
{
    sources_give_what_is_asked();
    failures_refuse_few_lines();
}

/// A run that ran out of memory had read no more of any source than one that ends: no row beyond the reach of the greatest depth to which a
/// line asked, no more grades than objects were asked for, no row of a list that can't be read in order, and over told tables no more than the
/// one runs of the lines read.
pub fn cut_runs_are_sparing()
    ensures { CutRunsAreSparing }
{
    cut_runs_give_what_is_asked();
}
