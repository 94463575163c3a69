//! The top call.

ghost use Rattle.std.specs.Prelude.{◌≤◌};
ghost use Rattle.command_line.specs.Calls.{call_of};
ghost use Rattle.port_calls.specs.Ports.{ports_of};
ghost use Rattle.topk_top.specs.Ends.{CallEnds};

use bulk_run::bulk;
use bundle_calls::{compare, judge, make, one};
use catalog_run::run;
use command_line::{Command, Status, Words, WordsFault, read_command, say};
use port_calls::{node, serve};
use source_api::Shelf;
use std::alloc::Global;
use std::sync::Wait;
use std::thread::Threads;
use std::time::Clock;
use tk_io::{Intake, Port, Sink};

/// What is written where the words are no command.
const WORDS_REFUSED: &[u8] = b"refused words\n";

/// Does what the words say, and writes one text.
///
/// `one` reads a bundle from the input, answers its query over the lists that the query names, and
/// writes the certificate of the answer or the line of a refusal: `refused bundle LINE` where the
/// input is no bundle, else the first refusal that holds of the query line. `compare` reads a bundle too,
/// and writes what each algorithm reads for its query. `judge` reads a certificate
/// and writes `fixes`, or on which table the answer is beaten, or why it isn't judged. `make` writes the
/// made table that its options ask for, and leaves the input as it was. `run` reads query lines from the
/// input, answers them over the lists of the catalog that its words name, whose sources are taken of the
/// shelf, and writes what became of each line, in their order: `refused catalog NAME RECORD` alone where
/// the catalog's text is none. `bulk` makes a table and queries over it as its options ask for, runs them
/// all and writes the sums over their answers; it leaves the input as it was. `node` serves one list of a catalog,
/// whose source is taken of the shelf, to the links of the port, one after another, and writes how many it
/// served. `serve` answers queries over the lists of a catalog to the links of the port, and writes how many links it took. Both leave
/// the input as it was, and no other command asks anything of the port. Words that are no command are answered with `refused words`.
///
/// What `one` and `run` write of query lines is proved: each line of the input is refused in one line, or gets a certificate. On every table that
/// agrees with what the certificate says was read, and there is one, that is the run of the query's algorithm, and the objects are a top k, or
/// within the factor that is printed.
///
/// The queries of `run`, `bulk` and `serve` are shared out among as many threads as their options say, and each source
/// has one more thread that reads ahead; where the system makes no thread, this one does all. These three and `node` may wait
/// for ever; the other commands start no thread.
#[tactic(auto, using(crate::proofs::Settings::run_settings, crate::proofs::Settings::bulk_settings, crate::proofs::Settings::serve_settings))]
pub fn top<W: Threads + Wait + Clock + Sync, H: Shelf, R: Intake, K: Sink, P: Port>(
    rt: &W,
    alloc: Global,
    words: &Words,
    shelf: &mut H,
    input: &mut R,
    out: &mut K,
    port: &mut P,
) -> Status
    ensures reads { R.faults input.old ≤ R.faults input.new }
    ensures writes { K.faults out.old ≤ K.faults out.new }
    ensures ends { CallEnds (call_of R.left R.faults K.held K.faults H.texts H.lists H.versions H.at words.now
        (input.old, out.old, shelf.old) (input.new, out.new, shelf.new))
        (ports_of P.links P.closed P.faults P.calls (port.old, port.new)) result }
{
    match read_command(alloc, words) {
        Ok(Command::One) => one(alloc, input, out),
        Ok(Command::Judge) => judge(alloc, input, out),
        Ok(Command::Compare) => compare(alloc, input, out),
        Ok(Command::Make(options)) => make(alloc, options.start, options.count, options.lists, out),
        Ok(Command::Run(options)) => run(rt, alloc, &options, shelf, input, out),
        Ok(Command::Bulk(options)) => bulk(rt, alloc, options, out),
        Ok(Command::Node(options)) => node(alloc, &options, shelf, out, port),
        Ok(Command::Serve(options)) => serve(rt, alloc, &options, shelf, out, port),
        Err(WordsFault::BadWords) => say(out, WORDS_REFUSED, Status::BadWords),
        Err(WordsFault::Memory) => Status::Memory,
    }
}
