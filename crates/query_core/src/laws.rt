//! Laws of right answers.

ghost use Rattle.std.specs.Prelude.{◌≡◌, ℕ, List};
ghost use Rattle.ranked_list.specs.declared.row.Row.{Row};
ghost use Rattle.access_log.specs.Log.{AgreesWith};
ghost use Rattle.machine_base.specs.declared.answer.Answer.{Answer as AnyAnswer};
ghost use Rattle.query_text.specs.declared.query.Query.{Query};
ghost use Rattle.query_core.specs.Methods.{Method};
ghost use Rattle.query_core.specs.OneAnswer.{IsAnsweredWith};

/// Where a table agrees with the transcripts of two right answers of a query by one method, these have the same
/// items and the same accesses: of a right answer no access can be left out, and none put behind it.
pub fn right_answers_are_one()
    ensures { (method : Method) (q : Query) (n : ℕ) (one other : AnyAnswer) (D : List (List Row)) → IsAnsweredWith method q n one → IsAnsweredWith method q n other
        → AgreesWith D one.transcript → AgreesWith D other.transcript
        → (one.items ≡ other.items) × (one.transcript.accesses ≡ other.transcript.accesses) }
{}
