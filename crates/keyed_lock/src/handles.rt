//! Passes of one part each, for threads that work beside one another.

ghost use Rattle.std.specs.Prelude.{◌≡◌, ◌≤◌, ◌<◌, ◌-◌, ◌+◌, [], All, map, vec_len, vec_capacity};
ghost use Rattle.keyed_lock.specs.Hold.{share_of};

use crate::lock::KeyedLock;
use crate::lock_invariant::LockInvariant;
use crate::pass::Pass;

/// Who works, with a pass of its own.
pub struct WorkerHandle<W, V: LockInvariant> {
    /// Who works.
    pub worker: W,
    /// Its pass.
    pub pass: Pass<V>,
}

/// Written here, and not derived, so that a crate that lets a handle go calls this.
impl<W: Drop, V: LockInvariant> Drop for WorkerHandle<W, V> {
    fn drop(self) {
        let WorkerHandle {
            worker: _worker,
            pass: _pass,
        } = self;
    }
}

impl<V: LockInvariant + Send + Drop> KeyedLock<V> {
    /// Gives each worker a pass of one part, split off this one, in a vector with room for all. Takes no memory.
    pub fn hand_out<W: Drop>(
        &self,
        pass: &mut Pass<V>,
        workers: &mut Vec<W>,
        handles: &mut Vec<WorkerHandle<W, V>>,
    )
        requires own { pass.old ≡ share_of self.now pass.old.1.parts }
        requires enough { vec_len workers.old < pass.old.1.parts }
        requires none { handles.old.items ≡ [] }
        requires room { vec_len workers.old ≤ vec_capacity handles.old }
        ensures pass { pass.new ≡ share_of self.now (pass.old.1.parts - vec_len workers.old) }
        ensures handles { map (λ handle. handle.worker) handles.new.items ≡ workers.old.items }
        ensures shares { All (λ handle. handle.pass ≡ share_of self.now 1) handles.new.items }
        ensures emptied { workers.new.items ≡ [] }
        ensures room { vec_capacity workers.new ≡ vec_capacity workers.old }
    {
        workers.reverse();
        while let Some(worker) = workers.pop() {
            let own = self.split(pass, 1);
            handles.push_reserved(WorkerHandle { worker, pass: own });
        }
    }

    /// Joins the passes of the workers to this one, and puts the workers into a vector with room for all. Takes no memory.
    pub fn hand_in<W: Drop>(
        &self,
        pass: &mut Pass<V>,
        handles: &mut Vec<WorkerHandle<W, V>>,
        workers: &mut Vec<W>,
    )
        requires own { pass.old ≡ share_of self.now pass.old.1.parts }
        requires shares { All (λ handle. handle.pass ≡ share_of self.now 1) handles.old.items }
        requires none { workers.old.items ≡ [] }
        requires room { vec_len handles.old ≤ vec_capacity workers.old }
        ensures pass { pass.new ≡ share_of self.now (pass.old.1.parts + vec_len handles.old) }
        ensures workers { workers.new.items ≡ map (λ handle. handle.worker) handles.old.items }
    {
        handles.reverse();
        while let Some(handle) = handles.pop() {
            let (worker, own) = handle.into_parts();
            self.join(pass, own);
            workers.push_reserved(worker);
        }
    }

    /// Splits so many passes of one part off this one, into a vector with room for them. Takes no memory.
    pub fn split_all(&self, pass: &mut Pass<V>, passes: &mut Vec<Pass<V>>, count: usize)
        requires own { pass.old ≡ share_of self.now pass.old.1.parts }
        requires enough { count < pass.old.1.parts }
        requires none { passes.old.items ≡ [] }
        requires room { count ≤ vec_capacity passes.old }
        ensures pass { pass.new ≡ share_of self.now (pass.old.1.parts - count) }
        ensures shares { All (λ own. own ≡ share_of self.now 1) passes.new.items }
        ensures size { vec_len passes.new ≡ count }
    {
        for given in 0..count {
            let own = self.split(pass, 1);
            passes.push_reserved(own);
        }
    }

    /// Joins passes of one part each to this one.
    pub fn join_all(&self, pass: &mut Pass<V>, passes: &mut Vec<Pass<V>>)
        requires own { pass.old ≡ share_of self.now pass.old.1.parts }
        requires shares { All (λ own. own ≡ share_of self.now 1) passes.old.items }
        ensures { pass.new ≡ share_of self.now (pass.old.1.parts + vec_len passes.old) }
    {
        while let Some(own) = passes.pop() {
            self.join(pass, own);
        }
    }
}

impl<W, V: LockInvariant> WorkerHandle<W, V> {
    /// Who works, and its pass.
    fn into_parts(self) -> (W, Pass<V>)
        ensures { result ≡ (self.worker, self.pass) }
    {
        let WorkerHandle { worker, pass } = self;
        (worker, pass)
    }
}
