ghost use Rattle.std.specs.Prelude.{◌≡◌, ◌+◌, ◌<◌, All, vec_len};
ghost use Rattle.turn_lock.specs.Known.{all_parts};
ghost use Rattle.test_parts.specs.Readers.{IsReady, IsWriter};

use crate::journal::{Journal, Reader};
use crate::turns::{ask, write};
use std::alloc::{AllocError, Global};
use std::sync::Wait;
use std::thread;
use std::thread::{Threads, join_mut};
use turn_lock::{Pass, TurnLock};

/// Takes so many turns.
pub fn ask_often<R: Wait>(rt: &R, lock: &TurnLock<Journal>, reader: &mut Reader, turns: u32)
    requires { IsReady lock.now reader.old }
    ensures { IsReady lock.now reader.new }
{
    for object in 0..turns {
        let Ok(entries) = ask(rt, lock, &mut reader.pass, object) else {
            return;
        };
        reader.turns = object + 1;
        reader.fell = reader.fell || entries < reader.entries;
        reader.entries = entries;
    }
}

/// Writes the numbers below `count`, each in a turn of its own.
pub fn write_often<R: Wait>(rt: &R, lock: &TurnLock<Journal>, pass: &mut Pass<Journal>, count: u32)
    requires { IsWriter lock.now pass.old }
    ensures own { IsWriter lock.now pass.new }
    ensures parts { pass.new.1.parts ≡ pass.old.1.parts }
{
    for entry in 0..count {
        if write(rt, lock, pass, entry).is_err() {
            return;
        }
    }
}

/// All readers at once, each in a thread of its own.
pub fn ask_at_once<R: Threads + Wait + Sync>(
    rt: &R,
    lock: &TurnLock<Journal>,
    readers: &mut [Reader],
    turns: u32,
)
    requires { All (IsReady lock.now) readers.old }
    ensures { All (IsReady lock.now) readers.new }
{
    thread::for_each_mut(
        rt,
        readers,
        8,
        &|_, reader: &mut Reader|
            requires { IsReady lock.now reader.now }
            ensures { IsReady lock.entry.now reader.exit.now }
        { ask_often(rt, lock, reader, turns) },
    );
}

/// Splits a reader off for each of `count`, with one part each. Without memory there are fewer.
pub fn split_readers(
    lock: &TurnLock<Journal>,
    pass: &mut Pass<Journal>,
    readers: &mut Vec<Reader>,
    count: u32,
)
    requires own { IsWriter lock.now pass.old × (pass.old.1.parts ≡ all_parts) }
    requires readers { (vec_len readers.old ≡ 0) × (count < all_parts) }
    ensures own { IsWriter lock.now pass.new }
    ensures parts { pass.new.1.parts + vec_len readers.new ≡ all_parts }
    ensures ready { All (IsReady lock.now) readers.new.items }
{
    for made in 0..count {
        if readers.reserve(1).is_err() {
            return;
        }
        readers.push_reserved(Reader {
            pass: lock.split(pass, 1),
            turns: 0,
            entries: 0,
            fell: false,
        });
    }
}

/// Joins all readers to the writer.
pub fn join_readers(lock: &TurnLock<Journal>, pass: &mut Pass<Journal>, readers: &mut Vec<Reader>)
    requires own { IsWriter lock.now pass.old }
    requires parts { pass.old.1.parts + vec_len readers.old ≡ all_parts }
    requires ready { All (IsReady lock.now) readers.old.items }
    ensures own { IsWriter lock.now pass.new }
    ensures parts { pass.new.1.parts ≡ all_parts }
{
    while let Some(reader) = readers.pop() {
        lock.join(pass, reader.pass);
    }
}

/// The writer's turns and those of all readers at the same time.
pub fn run_at_once<R: Threads + Wait + Sync>(
    rt: &R,
    lock: &TurnLock<Journal>,
    pass: &mut Pass<Journal>,
    readers: &mut [Reader],
    count: u32,
    turns: u32,
)
    requires writer { IsWriter lock.now pass.old }
    requires readers { All (IsReady lock.now) readers.old }
    ensures writer { IsWriter lock.now pass.new × (pass.new.1.parts ≡ pass.old.1.parts) }
    ensures readers { All (IsReady lock.now) readers.new }
{
    join_mut(
        rt,
        &mut || write_often(rt, lock, pass, count),
        &mut ||
            requires { All (IsReady lock.now) readers.now }
        { ask_at_once(rt, lock, readers, turns) },
    );
}
