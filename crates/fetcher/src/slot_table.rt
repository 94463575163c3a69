//! The slots of all sources while a run goes on, each at one thread at a time.

ghost use Rattle.std.specs.Prelude.{◌≡◌, ◌<◌, ◌≤◌, ◌^◌, [], IfOk, IfSome, IfNone, length, vec_len, vec_capacity};
ghost use Rattle.keyed_lock.specs.Hold.{all_parts, share_of};
ghost use Rattle.fetcher.specs.SlotTables.{IsSlotTable, AreServed, MayServe};

use super::serving::{Began, serve_turn};
use super::slot::Slot;
use super::stop::Stop;
use super::turned::Turned;
use keyed_lock::{KeyedLock, Pass};
use source_api::Source;
use source_pool::Pool;
use std::alloc::{AllocError, Global};
use std::snapshot::Snapshot;
use std::sync::Wait;
use turn_lock::Notify;

/// The slots of all sources, in their order, behind one lock, and what wakes the fetcher of each.
pub struct SlotTable<S: Source> {
    pub lock: KeyedLock<Slot<S>>,
    /// How many rows a page has at most, and how many pages are read ahead.
    pub page: u32,
    pub ahead: u32,
    /// Where the fetcher of a source sleeps until there are rows to read ahead.
    pub notifies: Vec<Notify>,
    /// Of each source whether it is far.
    pub far: Vec<bool>,
    /// Set once all workers have worked.
    pub stop: Stop,
}

/// Written here, and not derived, so that a crate that lets a slot table go calls this.
impl<S: Source> Drop for SlotTable<S> {
    fn drop(self) {
        let SlotTable {
            lock: _lock,
            page: _,
            ahead: _,
            notifies: _notifies,
            far: _far,
            stop: _stop,
        } = self;
    }
}

/// So many of them.
fn make_notifies(alloc: Global, count: usize) -> Result<Vec<Notify>, AllocError>
    ensures { IfOk result (λ notifies. vec_len notifies ≡ count) }
{
    let mut notifies = Vec::with_capacity(alloc, count)?;
    for made in 0..count {
        notifies.push_reserved(Notify::make());
    }
    Ok(notifies)
}

/// Of each source whether it is far.
fn find_far<S: Source>(alloc: Global, slots: &Vec<Slot<S>>) -> Result<Vec<bool>, AllocError> {
    let mut far = Vec::with_capacity(alloc, slots.len())?;
    for place in 0..slots.len() {
        far.push_reserved(slots[place].source.is_far());
    }
    Ok(far)
}

/// One turn with the slot of a source, where no other thread has it.
fn try_serve<S: Source>(
    rt: &impl Wait,
    alloc: Global,
    pool: &Pool,
    table: &SlotTable<S>,
    pass: &mut Pass<Slot<S>>,
    place: usize,
) -> Option<Turned>
    requires may { MayServe table.now pool.now pass.old }
    requires place { place < length pool.now }
    ensures { pass.new ≡ pass.old }
{
    let Some(mut slot) = table.lock.try_take(pass, place) else {
        return None;
    };
    let turned = serve_turn(rt, alloc, pool, &mut slot, table.page, table.ahead);
    table.lock.give(pass, place, slot);
    Some(turned)
}

/// One turn with the slot of a source, once no other thread has it.
fn serve<S: Source>(
    rt: &impl Wait,
    alloc: Global,
    pool: &Pool,
    table: &SlotTable<S>,
    pass: &mut Pass<Slot<S>>,
    place: usize,
) -> Turned
    requires may { MayServe table.now pool.now pass.old }
    requires place { place < length pool.now }
    ensures { pass.new ≡ pass.old }
{
    let mut slot = table.lock.take(rt, pass, place);
    let turned = serve_turn(rt, alloc, pool, &mut slot, table.page, table.ahead);
    table.lock.give(pass, place, slot);
    turned
}

/// Takes turns with the slot of a source until the sign is set. Where nothing is to be fetched it sleeps until rows may be read ahead.
pub fn serve_loop<S: Source>(
    rt: &impl Wait,
    alloc: Global,
    pool: &Pool,
    table: &SlotTable<S>,
    pass: &mut Pass<Slot<S>>,
    place: usize,
)
    requires may { MayServe table.now pool.now pass.old }
    requires place { place < length pool.now }
    ensures { pass.new ≡ pass.old }
{
    for _ in rt.forever() {
        let epoch = table.notifies[place].epoch();
        if table.stop.is_set() {
            return;
        }
        if serve(rt, alloc, pool, table, pass, place) == Turned::Idle {
            table.notifies[place].wait(rt, epoch);
        }
    }
}

impl<S: Source> SlotTable<S> {
    /// SlotTable for slots at which no turn was taken yet, with the pass that has all parts. Where memory runs out the slots stay.
    pub fn open(
        alloc: Global,
        pool: &Pool,
        slots: &mut Vec<Slot<S>>,
        page: u32,
        ahead: u32,
    ) -> Option<(SlotTable<S>, Pass<Slot<S>>)>
        requires fresh { AreServed S.list S.counts S.calls S.at_hand S.states pool.now page ahead slots.old.items slots.old.items }
        requires many { length slots.old.items ≡ length pool.now }
        requires few { length slots.old.items < 2 ^ 32 }
        ensures table { IfSome result (λ r. IsSlotTable r.0 pool.now × (r.1 ≡ share_of r.0.lock all_parts)) }
        ensures began { IfSome result (λ r. (r.0.lock.key.page ≡ page) × (r.0.lock.key.ahead ≡ ahead) × (r.0.lock.key.slots.value ≡ slots.old)) }
        ensures taken { IfSome result (λ _. slots.new.items ≡ []) }
        ensures stay { IfNone result (slots.new.items ≡ slots.old.items) }
        ensures room { vec_capacity slots.new ≡ vec_capacity slots.old }
    {
        let began = Began {
            pool: Snapshot::of(pool),
            page,
            ahead,
            slots: Snapshot::of(slots),
        };
        let Ok(notifies) = make_notifies(alloc, slots.len()) else {
            return None;
        };
        let Ok(far) = find_far(alloc, slots) else {
            return None;
        };
        match KeyedLock::open(alloc, &began, slots) {
            Ok((lock, pass)) => Some((
                SlotTable {
                    lock,
                    page,
                    ahead,
                    notifies,
                    far,
                    stop: Stop::make(),
                },
                pass,
            )),
            Err(_) => None,
        }
    }

    /// Takes the table down, by the pass that has all parts, and gives the slots back in their order. Takes no memory.
    pub fn close(self, pass: Pass<Slot<S>>, slots: &mut Vec<Slot<S>>)
        requires size { self.lock.size ≡ length self.lock.key.slots.value.items }
        requires whole { pass ≡ share_of self.lock all_parts }
        requires none { slots.old.items ≡ [] }
        requires room { self.lock.size ≤ vec_capacity slots.old }
        ensures { AreServed S.list S.counts S.calls S.at_hand S.states self.lock.key.pool.value self.lock.key.page self.lock.key.ahead
            self.lock.key.slots.value.items slots.new.items }
    {
        let SlotTable {
            lock,
            page: _,
            ahead: _,
            notifies: _notifies,
            far: _far,
            stop: _stop,
        } = self;
        lock.close(pass, slots);
    }

    /// Wakes the fetcher of a source where a turn brought a page, and more may be read ahead.
    fn wake(&self, place: usize, turned: Turned)
        requires { place < vec_len self.now.notifies }
    {
        if let Turned::Paged { .. } = turned
            && self.ahead > 0
        {
            self.notifies[place].notify_all();
        }
    }

    /// Whether a source is far.
    pub fn is_far(&self, place: usize) -> bool {
        match self.far.get(place) {
            Some(far) => *far,
            None => false,
        }
    }

    /// Wakes the fetcher of a source.
    pub fn wake_fetcher(&self, place: usize) {
        if let Some(notify) = self.notifies.get(place) {
            notify.notify_all();
        }
    }

    /// Wakes all fetchers.
    pub fn wake_all(&self) {
        for notify in self.notifies.iter() {
            notify.notify_all();
        }
    }
}

/// One turn with the slot of a source; where another thread has its slot, this waits until that gives it back, since it may have fetched what
/// is needed.
pub fn serve_or_wait<S: Source>(
    rt: &impl Wait,
    alloc: Global,
    pool: &Pool,
    table: &SlotTable<S>,
    pass: &mut Pass<Slot<S>>,
    place: usize,
)
    requires may { MayServe table.now pool.now pass.old }
    requires place { place < length pool.now }
    ensures { pass.new ≡ pass.old }
{
    let given = table.lock.given(place);
    match try_serve(rt, alloc, pool, table, pass, place) {
        Some(turned) => table.wake(place, turned),
        None => table.lock.sleep_till_given(rt, place, given),
    }
}
