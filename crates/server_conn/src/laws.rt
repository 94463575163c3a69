//! What is told of lines that are refused for calls of a source.

ghost use Rattle.std.specs.Prelude.{◌≡◌, ℕ, List};
ghost use Rattle.source_pool.specs.declared.hold.Hold.{Hold};
ghost use Rattle.source_api.specs.declared.source.FailKind.TheVariants as FailKind;
ghost use Rattle.cert_text.specs.declared.outcome.Outcome.TheVariants as Outcome;
ghost use Rattle.cert_text.specs.declared.refusal.Refusal.TheVariants as Refusal;
ghost use Rattle.query_core.specs.declared.ready.Ready.{Ready};
ghost use Rattle.query_admission.specs.declared.line_outcome.LineOutcome.{LineOutcome};
ghost use Rattle.server_conn.specs.Becoming.{RunsTo, ShowsOneMore};

/// Where a query is refused for a call of a list that failed, one more such call of the list's source was shown through the pass while the query
/// ran; and where it is refused for one that was garbled, one more of these.
pub fn fails_are_shown()
    ensures failed { (ready : Ready) (before now : List Hold) (o : LineOutcome) (list : ℕ) → RunsTo ready before now o
        → o.outcome ≡ Outcome.Refused (Refusal.Failed list) → ShowsOneMore FailKind.Failed ready list before now }
    ensures garbled { (ready : Ready) (before now : List Hold) (o : LineOutcome) (list : ℕ) → RunsTo ready before now o
        → o.outcome ≡ Outcome.Refused (Refusal.Garbled list) → ShowsOneMore FailKind.Garbled ready list before now }
{}
