//! The top call by the words of a process.

ghost use Rattle.std.specs.Prelude.{List, ℕ};
ghost use Rattle.command_line.specs.Calls.{call_of};
ghost use Rattle.port_calls.specs.Ports.{ports_of};
ghost use Rattle.topk_top.specs.Ends.{ExitsBy};

use super::call::top;
use command_line::{Status, Words, WordsFault, read_words};
use source_api::Shelf;
use std::alloc::Global;
use std::env::Env;
use std::sync::Wait;
use std::thread::Threads;
use std::time::Clock;
use tk_io::{Intake, Port, Sink};

/// Calls `top` with the words of a process, which `env` has, and gives the exit status; `rt` runs its
/// threads. A word that isn't UTF-8 makes the words no command, as no words are none.
///
/// What the words are is the process's own: the clause says that the call ends as some words do.
pub fn run_process<W: Threads + Wait + Clock + Sync, E: Env, H: Shelf, R: Intake, K: Sink, P: Port>(
    rt: &W,
    env: &E,
    alloc: Global,
    shelf: &mut H,
    input: &mut R,
    out: &mut K,
    port: &mut P,
) -> u8
    ensures { (words : List (List ℕ)) × ExitsBy (call_of R.left R.faults K.held K.faults H.texts H.lists H.versions H.at words
        (input.old, out.old, shelf.old) (input.new, out.new, shelf.new))
        (ports_of P.links P.closed P.faults P.calls (port.old, port.new)) result }
{
    let words = match read_words(env, alloc) {
        Ok(words) => words,
        Err(WordsFault::BadWords) => Words::make(alloc),
        Err(WordsFault::Memory) => return Status::Memory.code(),
    };
    let status = top(rt, alloc, &words, shelf, input, out, port);
    drop(words);
    status.code()
}
