ghost use Rattle.std.specs.Prelude.{◌≡◌, ◌<◌, length, IfSome, IfOk};
ghost use Rattle.turn_lock.specs.Known.{all_parts};
ghost use Rattle.test_parts.specs.Readers.{IsReader, IsWriter};

use crate::journal::{Journal, Reader};
use crate::readers::{join_readers, run_at_once, split_readers};
use crate::turns::{ask, catch_up, write};
use std::alloc::{AllocError, Global};
use std::sync::Wait;
use std::thread::Threads;
use turn_lock::{Pass, TurnLock};

/// What a lock had at its close, and what its readers noticed.
#[derive(Drop)]
pub struct Outcome {
    pub journal: Journal,
    /// How many turns the readers had.
    pub turns: u32,
    /// Whether a reader ever saw a shorter log than at its turn before.
    pub fell: bool,
}

/// A lock round an empty journal, with the writer's pass.
pub fn open_journal(alloc: Global) -> Option<(TurnLock<Journal>, Pass<Journal>)>
    ensures { IfSome result (λ r. IsWriter r.0 r.1 × (r.1.1.parts ≡ all_parts)) }
{
    let journal = Journal {
        entries: Vec::new(alloc),
        asks: Vec::new(alloc),
        mark: 0,
    };
    TurnLock::open(alloc, journal).ok()
}

/// The writer writes the numbers below `count`, and so many readers take so many turns each, all at once.
pub fn bench<R: Threads + Wait + Sync>(
    rt: &R,
    alloc: Global,
    readers: u32,
    count: u32,
    turns: u32,
) -> Option<Outcome>
    requires { readers < all_parts }
{
    let (lock, mut pass) = open_journal(alloc)?;
    let mut all = Vec::new(alloc);
    split_readers(&lock, &mut pass, &mut all, readers);
    run_at_once(rt, &lock, &mut pass, all.as_mut_slice(), count, turns);
    let (turns, fell) = noticed(all.as_slice());
    join_readers(&lock, &mut pass, &mut all);
    Some(Outcome {
        journal: lock.close(pass),
        turns,
        fell,
    })
}

// The turns of all readers, and whether one of them saw the log fall.
fn noticed(readers: &[Reader]) -> (u32, bool) {
    let mut turns: u32 = 0;
    let mut fell = false;
    for reader in readers {
        turns = turns.saturating_add(reader.turns);
        fell = fell || reader.fell;
    }
    (turns, fell)
}

/// Splits all parts but one off, lets both passes take turns, joins them and closes the lock.
pub fn split_to_the_last_part(rt: &impl Wait, alloc: Global) -> Option<Journal> {
    let (lock, mut pass) = open_journal(alloc)?;
    let mut other = lock.split(&mut pass, 4_294_967_295);
    let written = write(rt, &lock, &mut pass, 7);
    let seen = ask(rt, &lock, &mut other, 5);
    lock.join(&mut pass, other);
    (written.is_ok() && seen.is_ok()).then_some(lock.close(pass))
}

// An entry, and then a turn of a reader: how many entries it saw.
fn write_and_ask(
    rt: &impl Wait,
    lock: &TurnLock<Journal>,
    writer: &mut Pass<Journal>,
    reader: &mut Pass<Journal>,
    entry: u32,
) -> Result<u64, AllocError>
    requires writer { IsWriter lock.now writer.old }
    requires reader { IsReader lock.now reader.old }
    ensures writer { IsWriter lock.now writer.new × (writer.new.1.parts ≡ writer.old.1.parts) }
    ensures reader { IsReader lock.now reader.new }
    ensures saw { IfOk result (λ n. n ≡ length reader.new.1.seen) }
{
    write(rt, lock, writer, entry)?;
    ask(rt, lock, reader, 0)
}

// An entry and a turn of one reader, then an entry and a turn of the other: how many entries each saw.
fn look_in_turn(
    rt: &impl Wait,
    lock: &TurnLock<Journal>,
    writer: &mut Pass<Journal>,
    early: &mut Pass<Journal>,
    late: &mut Pass<Journal>,
) -> Result<(u64, u64), AllocError>
    requires writer { IsWriter lock.now writer.old }
    requires readers { IsReader lock.now early.old × IsReader lock.now late.old }
    ensures writer { IsWriter lock.now writer.new × (writer.new.1.parts ≡ writer.old.1.parts) }
    ensures readers { IsReader lock.now early.new × IsReader lock.now late.new }
    ensures saw { IfOk result (λ n. (n.0 ≡ length early.new.1.seen) × (n.1 ≡ length late.new.1.seen)) }
{
    let fewer = write_and_ask(rt, lock, writer, early, 0)?;
    let more = write_and_ask(rt, lock, writer, late, 1)?;
    Ok((fewer, more))
}

/// Two readers with a turn each, the later one after one more entry, and the later one joined to the earlier one:
/// how many entries each saw.
pub fn join_late(rt: &impl Wait, alloc: Global) -> Option<(u64, u64)> {
    let (lock, mut pass) = open_journal(alloc)?;
    let mut early = lock.split(&mut pass, 1);
    let mut late = lock.split(&mut pass, 1);
    let looked = look_in_turn(rt, &lock, &mut pass, &mut early, &mut late).ok();
    match looked {
        Some((fewer, more)) if fewer < more => catch_up(&lock, &mut early, late),
        _ => lock.join(&mut early, late),
    }
    lock.join(&mut pass, early);
    drop(lock.close(pass));
    looked
}
