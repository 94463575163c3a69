//! The state.

ghost use Rattle.std.specs.Prelude.{◌≡◌, ◌<◌, ◌≤◌, None, Some, length, slice_get, IfOk};
ghost use Rattle.turn_lock.specs.Facts.{FactsGrow};
ghost use Rattle.source_state.specs.Log.{rows_in, fault_in};
ghost use Rattle.topk_theory.specs.Bounds.{grade_among};
ghost use Rattle.source_state.specs.State.{opened, asks_of, asked_in, asked_as, first_pending, fails_of, fault_by_grades, row_fault, settle, IsSound, SettlesWell};
ghost use Rattle.source_state.specs.Events.{counted};

use super::entry::{Asked, LogEntry, Note, Settling, SourceFault};
use super::event::{Applied, Event};
use super::objects::Objects;
use ranked_list::{PageRows, Row};
use source_api::FailKind;
use std::alloc::Global;
use std::marker::Model;
use topk_base::{MAX_OBJECTS, Memory, TOP_GRADE};
use turn_lock::{Logged, Tally};

/// The state of one source. Only `open` takes memory. Contracts see it as `State`. It is moved by a
/// pointer, since a lock hands it over at each turn.
pub struct SourceState {
    kept: Box<Kept>,
}

/// Written here, and not derived, so that a crate that lets a state go calls this.
impl Drop for SourceState {
    fn drop(self) {
        let SourceState { kept: _kept } = self;
    }
}

/// What the state of a source holds.
#[derive(Drop)]
struct Kept {
    list: u32,
    count: u32,
    want: u32,
    log: Vec<Note>,
    objects: Objects,
    fault: Option<SourceFault>,
    tally: Tally,
    last_fail: Option<FailKind>,
    paused: bool,
}

impl Model for SourceState {
    ghost use Rattle.source_state.specs.State.{State};
    ghost use Rattle.source_state.specs.Keeping.{shown_by, KeepsFields};

    ghost Value = { State };

    ghost view = { λ a. shown_by a.kept.value };

    ghost invariant = { λ a. KeepsFields a.kept.value };
}

impl Logged for SourceState {
    ghost use Rattle.source_state.specs.State.{facts_of};

    type Entry = LogEntry;

    ghost facts = { facts_of };

    fn length(&self) -> u64 {
        self.kept.log.len() as u64
    }
}

/// What became of an ask that settled so.
fn asked_as(settling: Option<Settling>) -> Asked
    ensures { result ≡ asked_as settling }
{
    match settling {
        None => Asked::Pending,
        Some(Settling::Graded(grade)) => Asked::Graded(grade),
        Some(Settling::Bad(fault)) => Asked::Bad(fault),
        Some(Settling::Missed) => Asked::Missed,
    }
}

/// The tally with one more fail of a kind. A count stands still at its last number.
fn counted(what: FailKind, tally: Tally) -> Tally
    ensures { result ≡ counted what tally }
{
    match what {
        FailKind::Failed => Tally {
            failed: tally.failed.saturating_add(1),
            ..tally
        },
        FailKind::Garbled => Tally {
            garbled: tally.garbled.saturating_add(1),
            ..tally
        },
        FailKind::Memory => Tally {
            memory: tally.memory.saturating_add(1),
            ..tally
        },
    }
}

/// The row of a page at a place.
fn row_at(rows: &PageRows, place: u32) -> Row
    requires { place < length rows.now }
    ensures { slice_get rows.now place ≡ Some result }
{
    *rows.get(place).unwrap()
}

impl SourceState {
    ghost use Rattle.source_state.specs.State.{facts_of};
    ghost use Rattle.source_state.specs.Events.{after, logged, wanted, with_ask, with_rows, paged, failed, moved, MayCome, MayMove, MayPage, IsApplied, KeepsLog};

    /// The state of the list of this number, which has `count` objects, before any event.
    pub fn open(alloc: Global, list: u32, count: u32) -> Result<SourceState, Memory>
        requires { count ≤ MAX_OBJECTS }
        ensures { IfOk result (λ state. state ≡ opened list count) }
    {
        let Ok(log) = Vec::with_capacity(alloc, 2 * count as usize + 1) else {
            return Err(Memory);
        };
        let objects = Objects::make(alloc, count)?;
        let held = Kept {
            list,
            count,
            want: 0,
            log,
            objects,
            fault: None,
            tally: Tally {
                failed: 0,
                garbled: 0,
                memory: 0,
            },
            last_fail: None,
            paused: false,
        };
        let Ok(kept) = Box::new(alloc, held) else {
            return Err(Memory);
        };
        Ok(SourceState { kept })
    }

    /// What an event does, and whether it set the row fault. It takes no memory.
    ///
    /// A want has a depth of the list. An ask is there already, or there is room for it. A page comes where no row fault stands
    /// and a row is missing, and its rows are no more than are missing. A grade and a miss are of an object whose ask is pending.
    /// A move tells of two versions that differ; it has an object whose ask is pending, or it comes where no row fault stands and a
    /// row is missing.
    ///
    /// *Cost*: a look-up or two and at most the logarithm of the asks, for each row of a page; a pass over the asks for the row that a good
    /// grade is above. Takes no memory.
    pub fn apply(&mut self, event: Event) -> Applied
        requires { MayCome self.old event }
        ensures state { self.new ≡ after self.old event }
        ensures applied { IsApplied self.old self.new result }
        ensures grows { FactsGrow (facts_of self.old) (facts_of self.new) }
        ensures keeps { KeepsLog event self.old self.new }
        ensures sound { IsSound self.new }
    {
        match event {
            Event::Want { depth } => self.add_want(depth),
            Event::Ask { object } => self.add_ask(object),
            Event::Page { rows } => return self.add_page(&rows),
            Event::Grade { object, grade } => self.add_grade(object, grade),
            Event::Miss { object } => self.add_settling(object, Settling::Missed),
            Event::Fail { what } => self.add_fail(what),
            Event::Move { object, had, now } => {
                return self.add_move(object, SourceFault::Moved { had, now });
            }
        }
        Applied::Done
    }

    /// A row at this depth is wanted.
    pub(crate) fn add_want(&mut self, depth: u32)
        requires { depth ≤ self.old.count }
        ensures state { self.new ≡ wanted self.old depth }
        ensures grows { FactsGrow (facts_of self.old) (facts_of self.new) }
        ensures sound { IsSound self.new }
    {
        let kept = &mut *self.kept;
        kept.want = kept.want.max(depth);
        kept.paused = false;
    }

    /// The grade of an object is asked for.
    pub(crate) fn add_ask(&mut self, object: u32)
        requires { asked_in self.old object ≡ None → length self.old.asks < self.old.count }
        ensures state { self.new ≡ with_ask self.old object }
        ensures grows { FactsGrow (facts_of self.old) (facts_of self.new) }
        ensures sound { IsSound self.new }
    {
        let kept = &mut *self.kept;
        kept.objects.add(object);
        kept.paused = false;
    }

    /// A call failed.
    fn add_fail(&mut self, what: FailKind)
        ensures state { self.new ≡ failed self.old what }
        ensures grows { FactsGrow (facts_of self.old) (facts_of self.new) }
        ensures sound { IsSound self.new }
    {
        let kept = &mut *self.kept;
        kept.tally = counted(what, kept.tally);
        kept.last_fail = Some(what);
        kept.paused = true;
    }

    /// The grade of an object whose ask is pending.
    fn add_grade(&mut self, object: u32, grade: u32)
        requires { asked_in self.old object ≡ Some Asked.Pending }
        ensures state { self.new ≡ logged self.old (LogEntry.Settled object (settle (rows_in self.old.log) object grade)) }
        ensures grows { FactsGrow (facts_of self.old) (facts_of self.new) }
        ensures sound { IsSound self.new }
    {
        // Serves the prover alone: a field that is read shows the invariant.
        let _ = &self.kept.count;
        let settling = self.settle(object, grade);
        self.add_settling(object, settling);
    }

    /// What the grade of an object settles as.
    fn settle(&self, object: u32, grade: u32) -> Settling
        ensures { result ≡ settle (rows_in self.now.log) object grade }
    {
        let bottom = self.kept.objects.bottom();
        match self.kept.objects.grade(object) {
            Some(sorted) if sorted == grade => Settling::Graded(grade),
            Some(sorted) => Settling::Bad(SourceFault::Clash {
                object,
                sorted,
                random: grade,
            }),
            None if bottom < grade => Settling::Bad(SourceFault::Above {
                object,
                grade,
                bottom,
            }),
            None => Settling::Graded(grade),
        }
    }

    /// The ask of an object, which is pending, is settled by a good grade, a bad one or a miss.
    fn add_settling(&mut self, object: u32, settling: Settling)
        requires pending { asked_in self.old object ≡ Some Asked.Pending }
        requires fits { SettlesWell (rows_in self.old.log) object settling }
        ensures state { self.new ≡ logged self.old (LogEntry.Settled object settling) }
        ensures grows { FactsGrow (facts_of self.old) (facts_of self.new) }
        ensures sound { IsSound self.new }
    {
        let kept = &mut *self.kept;
        let place = kept.objects.settle(object, settling).unwrap();
        kept.log.push_reserved(Note::Settled { place });
    }

    /// The list was replaced: without an object the rows are at fault, with one its ask, which is pending, is settled.
    fn add_move(&mut self, object: Option<u32>, fault: SourceFault) -> Applied
        requires { MayMove self.old object }
        ensures state { self.new ≡ moved self.old object fault }
        ensures applied { IsApplied self.old self.new result }
        ensures grows { FactsGrow (facts_of self.old) (facts_of self.new) }
        ensures sound { IsSound self.new }
    {
        match object {
            Some(object) => {
                self.add_settling(object, Settling::Bad(fault));
                Applied::Done
            }
            None => {
                self.add_fault(fault);
                Applied::Broken
            }
        }
    }

    /// The rows of a page.
    fn add_page(&mut self, rows: &PageRows) -> Applied
        requires { MayPage self.old rows.now }
        ensures state { self.new ≡ paged self.old rows.now }
        ensures applied { IsApplied self.old self.new result }
        ensures grows { FactsGrow (facts_of self.old) (facts_of self.new) }
        ensures sound { IsSound self.new }
    {
        if rows.is_empty() {
            let fault = self.short_list();
            self.add_fault(fault);
            return Applied::Broken;
        }
        self.add_rows(rows)
    }

    /// The fault of a list that is short.
    fn short_list(&self) -> SourceFault
        ensures { result ≡ SourceFault.ShortList self.now.count (length (rows_in self.now.log)) }
    {
        SourceFault::ShortList {
            stated: self.kept.count,
            got: self.kept.objects.rows(),
        }
    }

    /// The rows of a page one after another, up to the first at fault.
    fn add_rows(&mut self, rows: &PageRows) -> Applied
        requires { MayPage self.old rows.now }
        ensures state { self.new ≡ with_rows self.old rows.now }
        ensures applied { IsApplied self.old self.new result }
        ensures sound { IsSound self.new }
    {
        // Serves the prover alone: a field that is read shows the invariant.
        let _ = &self.kept.count;
        for place in 0..rows.len() {
            let row = row_at(rows, place);
            match self.fault_of(row) {
                Some(fault) => {
                    self.add_fault(fault);
                    return Applied::Broken;
                }
                None => self.add_row(row),
            }
        }
        Applied::Done
    }

    /// What is at fault with a row that is to follow.
    fn fault_of(&self, row: Row) -> Option<SourceFault>
        ensures { result ≡ row_fault (rows_in self.now.log) (asks_of self.now) row }
    {
        let kept = &*self.kept;
        let bottom = kept.objects.bottom();
        if row.grade > TOP_GRADE {
            return Some(SourceFault::TooHigh {
                place: kept.objects.rows() + 1,
                grade: row.grade,
            });
        }
        if row.grade > bottom {
            return Some(SourceFault::OutOfOrder {
                place: kept.objects.rows() + 1,
                before: bottom,
                after: row.grade,
            });
        }
        if kept.objects.grade(row.object).is_some() {
            return Some(SourceFault::Repeated {
                object: row.object,
                place: kept.objects.rows() + 1,
            });
        }
        self.fault_by_grades(row)
    }

    /// What is at fault with a row by the grades that were asked for.
    fn fault_by_grades(&self, row: Row) -> Option<SourceFault>
        ensures { result ≡ fault_by_grades (asks_of self.now) row }
    {
        if let Some(ask) = self.kept.objects.ask(row.object) {
            if let Some(random) = ask.grade() {
                if random != row.grade {
                    return Some(SourceFault::Clash {
                        object: row.object,
                        sorted: row.grade,
                        random,
                    });
                }
            }
        }
        let above = self.kept.objects.first_above(row.grade)?;
        Some(SourceFault::Above {
            object: above.object,
            grade: above.grade,
            bottom: row.grade,
        })
    }

    /// Keeps a row, with which nothing is at fault.
    fn add_row(&mut self, row: Row)
        requires room { length (rows_in self.old.log) < self.old.count }
        requires sound { row_fault (rows_in self.old.log) (asks_of self.old) row ≡ None }
        ensures state { self.new ≡ logged self.old (LogEntry.Kept row) }
        ensures sound { IsSound self.new }
    {
        let kept = &mut *self.kept;
        let place = kept.objects.rows();
        kept.objects.push(row);
        kept.log.push_reserved(Note::Kept { place });
    }

    /// Sets the row fault, where none stands.
    fn add_fault(&mut self, fault: SourceFault)
        requires { fault_in self.old.log ≡ None }
        ensures state { self.new ≡ logged self.old (LogEntry.Fault fault) }
        ensures sound { IsSound self.new }
    {
        let kept = &mut *self.kept;
        kept.log.push_reserved(Note::Fault);
        kept.fault = Some(fault);
    }

    /// How many objects the list has.
    pub fn count(&self) -> u32
        ensures count { result ≡ self.now.count }
        ensures sound { IsSound self.now }
    {
        self.kept.count
    }

    /// The row at a place from 0, or None where it isn't there.
    pub fn row(&self, place: u32) -> Option<Row>
        ensures { result ≡ slice_get (rows_in self.now.log) place }
    {
        self.kept.objects.row(place)
    }

    /// How many rows are kept.
    pub fn rows(&self) -> u32
        ensures { result ≡ length (rows_in self.now.log) }
    {
        self.kept.objects.rows()
    }

    /// What became of the ask of an object, or None where it wasn't asked.
    pub fn asked(&self, object: u32) -> Option<Asked>
        ensures { result ≡ asked_in self.now object }
    {
        let ask = self.kept.objects.ask(object)?;
        Some(asked_as(ask.settling))
    }

    /// How many objects were asked.
    pub fn asks(&self) -> u32
        ensures asks { result ≡ length self.now.asks }
        ensures sound { IsSound self.now }
    {
        self.kept.objects.asks()
    }

    /// The first object, in the order of asking, whose ask is pending and that the rows don't hold.
    pub fn first_pending(&self) -> Option<u32>
        ensures { result ≡ first_pending self.now }
    {
        let ask = self.kept.objects.first_due()?;
        Some(ask.object)
    }

    /// The row fault, if one stands.
    pub fn row_fault(&self) -> Option<SourceFault>
        ensures { result ≡ fault_in self.now.log }
    {
        self.kept.fault
    }

    /// The greatest depth that was wanted, or 0.
    pub fn want(&self) -> u32
        ensures { result ≡ self.now.want }
    {
        self.kept.want
    }

    /// How many fails came. The count stands still at its last number.
    pub fn fails(&self) -> u64
        ensures { result ≡ fails_of self.now.tally }
    {
        self.kept
            .tally
            .failed
            .saturating_add(self.kept.tally.garbled)
            .saturating_add(self.kept.tally.memory)
    }

    /// How many fails of each kind came.
    pub fn tally(&self) -> Tally
        ensures { result ≡ self.now.tally }
    {
        self.kept.tally
    }

    /// The kind of the last fail.
    pub fn last_fail(&self) -> Option<FailKind>
        ensures { result ≡ self.now.last_fail }
    {
        self.kept.last_fail
    }

    /// Whether the last fail has no later want or ask.
    pub fn paused(&self) -> bool
        ensures { result ≡ self.now.paused }
    {
        self.kept.paused
    }

    /// The grade that the rows give an object.
    pub(crate) fn grade_in_rows(&self, object: u32) -> Option<u32>
        ensures { result ≡ grade_among (rows_in self.now.log) object }
    {
        self.kept.objects.grade(object)
    }
}
