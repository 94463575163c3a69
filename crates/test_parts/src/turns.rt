ghost use Rattle.std.specs.Prelude.{◌≡◌, ◌+◌, ◌<◌, [], ◌∷◌, ◌++◌, length, true, false, None, IfOk, OnOk, OnErr};
ghost use Rattle.turn_lock.specs.Known.{Follows};

use crate::journal::Journal;
use std::alloc::AllocError;
use std::sync::Wait;
use turn_lock::{Pass, TurnLock};

/// A turn of the writer, which adds an entry.
pub fn write(
    rt: &impl Wait,
    lock: &TurnLock<Journal>,
    pass: &mut Pass<Journal>,
    entry: u32,
) -> Result<(), AllocError>
    requires own { (pass.old.0 ≡ lock.now) × (pass.old.1.held ≡ None) }
    requires writer { pass.old.1.writer ≡ true }
    ensures own { (pass.new.0 ≡ lock.now) × (pass.new.1.held ≡ None) }
    ensures stays { (pass.new.1.writer ≡ true) × (pass.new.1.parts ≡ pass.old.1.parts) }
    ensures ok { OnOk result (pass.new.1.seen ≡ pass.old.1.seen ++ entry ∷ []) }
    ensures err { OnErr result (pass.new.1.seen ≡ pass.old.1.seen) }
{
    let mut journal = lock.take(rt, pass);
    let written = journal.entries.push(entry);
    lock.give(pass, journal);
    written?;
    Ok(())
}

/// A turn of a reader, which asks and may raise the mark. It tells how many entries it saw.
pub fn ask(
    rt: &impl Wait,
    lock: &TurnLock<Journal>,
    pass: &mut Pass<Journal>,
    object: u32,
) -> Result<u64, AllocError>
    requires own { (pass.old.0 ≡ lock.now) × (pass.old.1.held ≡ None) }
    ensures own { (pass.new.0 ≡ lock.now) × (pass.new.1.held ≡ None) }
    ensures stays { (pass.new.1.writer ≡ pass.old.1.writer) × (pass.new.1.parts ≡ pass.old.1.parts) }
    ensures follows { Follows pass.old.1 pass.new.1 }
    ensures seen { IfOk result (λ n. n ≡ length pass.new.1.seen) }
{
    let mut journal = lock.take(rt, pass);
    let asked = journal.asks.push(object);
    journal.mark = journal.mark.max(object);
    let entries = journal.entries.len() as u64;
    lock.give(pass, journal);
    asked?;
    Ok(entries)
}

/// Joins a reader that saw more to one that saw less. What it then has seen is what the former saw.
pub fn catch_up(lock: &TurnLock<Journal>, early: &mut Pass<Journal>, late: Pass<Journal>)
    requires own { (early.old.0 ≡ lock.now) × (late.0 ≡ lock.now) }
    requires rest { (early.old.1.held ≡ None) × (late.1.held ≡ None) }
    requires readers { (early.old.1.writer ≡ false) × (late.1.writer ≡ false) }
    requires later { length early.old.1.seen < length late.1.seen }
    ensures own { (early.new.0 ≡ lock.now) × (early.new.1.held ≡ None) }
    ensures parts { early.new.1.parts ≡ early.old.1.parts + late.1.parts }
    ensures seen { early.new.1.seen ≡ late.1.seen }
{
    lock.join(early, late);
}
