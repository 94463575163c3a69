//! Laws of histories and logs.

ghost use Rattle.std.specs.Prelude.{◌≡◌, ◌<◌, ◌≤◌, ℕ, Some, List, length, All};
ghost use Rattle.topk_theory.specs.declared.access.Access.{Access};
ghost use Rattle.topk_theory.specs.Transcript.{IsDrawn, Gives, list_of, named_objects};
ghost use Rattle.topk_theory.specs.Consistent.{Kind, IsOfKind, SomeAgrees, too_many_objects};
ghost use Rattle.source_state.specs.declared.entry.LogEntry.{LogEntry};
ghost use Rattle.source_state.specs.declared.event.Event.{Event};
ghost use Rattle.ranked_list.specs.declared.need.Need.{Need};
ghost use Rattle.turn_lock.specs.declared.facts.Tally.{Tally};
ghost use Rattle.source_api.specs.declared.source.FailKind.{FailKind};
ghost use Rattle.source_state.specs.declared.event.Event.TheVariants.{Fail};
ghost use Rattle.source_state.specs.declared.look.Waiting.{Waiting};
ghost use Rattle.source_state.specs.State.{State, opened, last_count, IsCounted};
ghost use Rattle.source_state.specs.Events.{after, count_of};
ghost use Rattle.source_state.specs.Looking.{told};
ghost use Rattle.source_state.specs.History.{replayed, kept_by, log_told, AllMayCome, IsByHistory};
ghost use Rattle.source_state.specs.Drawing.{told_by, IsSomeSound};

/// After a history whose events may come, one after another, the state is what the history says: the greatest depth that was wanted,
/// the objects in the order in which they were asked first, the fails of each kind and the last one, whether the last of the fails,
/// wants and asks is a fail, the rows that came before the first at fault, its fault or that the list is short or was replaced, and
/// what each object settled as.
pub fn each_history_is_told()
    ensures { (list count : ℕ) (E : List Event) → AllMayCome (opened list count) E
        → IsByHistory (kept_by (opened list count)) count E (replayed (opened list count) E) }
{}

/// After such a history the log is what the history says: event by event the rows that were kept of it, what it settled, and the
/// row fault that it set, in the order in which they came.
pub fn each_log_is_told()
    ensures { (list count : ℕ) (E : List Event) → AllMayCome (opened list count) E
        → (replayed (opened list count) E).log ≡ log_told (kept_by (opened list count)) count E }
{}

/// What is drawn from sound logs is consistent, as far as the number of the objects that it names allows; and where one more
/// access is given by them, the only way in which it may not go with those before it is that it names one object too many.
pub fn what_is_drawn_is_consistent()
    ensures drawn { (m n : ℕ) (logs : List (List LogEntry)) (A : List Access) → All IsSomeSound logs
        → IsDrawn m (told_by logs) A → length (named_objects A) ≤ n → SomeAgrees m n A }
    ensures next { (m n : ℕ) (logs : List (List LogEntry)) (A : List Access) (access : Access) (kind : Kind) → All IsSomeSound logs
        → IsDrawn m (told_by logs) A → list_of access < m → Gives (told_by logs) A access
        → IsOfKind m n A access kind → kind ≡ too_many_objects }
{}

/// A number of the tally that has come to its last value stands still: a further fail of its kind leaves the tally, and none of
/// that kind is told to whom noted it.
pub fn full_counts_stand_still()
    ensures stays { (s : State) (what : FailKind) → count_of what s.tally ≡ last_count → (after s (Fail what)).tally ≡ s.tally }
    ensures untold { (waiting : Waiting) (need : Need) (now : Tally) (what : FailKind) → IsCounted now
        → count_of what waiting.noted ≡ last_count → told waiting need now ≡ Some what → ⊥ }
{}
