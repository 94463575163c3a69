//! The command `run`: query lines over the lists of a catalog.

ghost use Rattle.std.specs.Prelude.{◌≡◌, ◌≤◌, ℕ, List, IfOk, map};
ghost use Rattle.topk_base.specs.Lines.{lines};
ghost use Rattle.source_api.specs.declared.ledger.PlaceCounts.{PlaceCounts};
ghost use Rattle.source_api.specs.Places.{HasTextCause};
ghost use Rattle.topk_base.specs.Ranges.{AreSettings};
ghost use Rattle.command_line.specs.Calls.{output_as, call_of};
ghost use Rattle.command_line.specs.Ends.{Says};
ghost use Rattle.catalog_run.specs.RunEnds.{EndsRunning};
ghost use Rattle.catalog_run.specs.Faults.{SaysFault, text_status, read_status};
ghost use Rattle.catalog_run.specs.Running.{catalog_refused_text};

use super::ended_lines::let_go;
use super::line_outcomes::write_outcomes;
use super::lines::run_lines;
use catalog_open::Memory;
use catalog_text::{Catalog, CatalogFault, read_catalog};
use command_line::{RunOptions, Status, ended};
use source_api::{FailKind, Shelf, Trouble};
use std::alloc::Global;
use std::sync::Wait;
use std::thread::Threads;
use tk_io::{Intake, Put, ReadError, Sink, Writer, read_text};
use topk_base::{MAX_INPUT, first_line};

/// Answers the query lines that the input has, over the lists of the catalog that the options name, and writes what became of each line,
/// in their order. The catalog's text is asked of the shelf first; only where it is a catalog is the input read, and the sources that its
/// lines want are taken of the shelf. All that were taken are put back, however the call ends. The queries are shared out among as many
/// threads as the settings say, and each source has one more thread that reads ahead. Where the system makes no thread, this one does all. The
/// call may wait for ever.
///
/// - `Done`: each line was answered.
/// - `Partial`: a line was refused.
/// - `BadCatalog`: the catalog's text is none, and `refused catalog NAME RECORD` alone was written, which names its first record at fault;
///   the input is left as it was.
/// - `OpenFault`: the shelf failed to give the catalog's text; nothing was read or written.
/// - `ReadFault`, `LongInput`: a read of the input failed, or it has more bytes than the limit; nothing was written.
/// - `WriteFault`: a write failed; a front of the text was written.
/// - `Memory`: no memory was left; nothing was written. What was read of the sources by then is within the bounds of a run that ends.
///
/// No other status comes.
pub fn run<W: Threads + Wait + Sync, H: Shelf, R: Intake, K: Sink>(
    rt: &W,
    alloc: Global,
    options: &RunOptions,
    shelf: &mut H,
    input: &mut R,
    out: &mut K,
) -> Status
    requires { AreSettings options.now.settings }
    ensures reads { R.faults input.old ≤ R.faults input.new }
    ensures writes { K.faults out.old ≤ K.faults out.new }
    ensures ends { (words : List (List ℕ)) → EndsRunning options.now (call_of R.left R.faults K.held K.faults H.texts H.lists H.versions H.at words
        (input.old, out.old, shelf.old) (input.new, out.new, shelf.new)) result }
{
    let text = match shelf.text(alloc, options.catalog.as_str()) {
        Ok(text) => text,
        Err(trouble) => return text_status(trouble),
    };
    let read = read_catalog(alloc, &text);
    drop(text);
    let catalog = match read {
        Ok(catalog) => catalog,
        Err(fault) => return refuse(out, fault),
    };
    let bytes = match read_text(alloc, input, MAX_INPUT) {
        Ok(bytes) => bytes,
        Err(error) => {
            let_catalog_go(catalog);
            return read_status(error);
        }
    };
    let Ok(lines) = lines_of(alloc, &bytes) else {
        let_catalog_go(catalog);
        return Status::Memory;
    };
    let ran = run_lines(rt, alloc, shelf, &catalog, &lines, options.settings);
    let_catalog_go(catalog);
    let Ok(outcomes) = ran else {
        return Status::Memory;
    };
    let status = write_outcomes(rt, alloc, out, &outcomes, options.settings.workers);
    let_go(outcomes);
    status
}

/// How a run ends whose catalog's text a shelf failed to give, which it never does by a move.
fn text_status(trouble: Trouble) -> Status
    requires { (before : PlaceCounts) × (now : PlaceCounts) × HasTextCause before now trouble }
    ensures { result ≡ text_status trouble }
{
    match trouble {
        Trouble::Fail(FailKind::Memory) => Status::Memory,
        Trouble::Fail(FailKind::Failed) => Status::OpenFault,
        Trouble::Fail(FailKind::Garbled) => Status::OpenFault,
        Trouble::Moved { .. } => unreachable!(),
    }
}

/// How a run ends whose input couldn't be read to its end.
fn read_status(error: ReadError) -> Status
    ensures { result ≡ read_status error }
{
    match error {
        ReadError::Failed => Status::ReadFault,
        ReadError::Long => Status::LongInput,
        ReadError::Memory => Status::Memory,
    }
}

/// Lets a catalog go.
fn let_catalog_go(_: Catalog) {}

/// Ends for this fault of a text that should be a catalog: it is written, unless memory ran out.
pub fn refuse<K: Sink>(out: &mut K, fault: CatalogFault) -> Status
    ensures counts { K.faults out.old ≤ K.faults out.new }
    ensures says { SaysFault (output_as K.held K.faults out.old) (output_as K.held K.faults out.new) fault result }
{
    match fault {
        CatalogFault::CatalogLine { line } => refuse_catalog(out, b"CatalogLine", line),
        CatalogFault::SameName { line } => refuse_catalog(out, b"SameName", line),
        CatalogFault::Memory => Status::Memory,
    }
}

/// Writes which record of a text that is no catalog is at fault, by the fault's name, and ends so, or with
/// a write fault.
fn refuse_catalog<K: Sink>(out: &mut K, fault: &[u8], record_number: u64) -> Status
    ensures counts { K.faults out.old ≤ K.faults out.new }
    ensures says { Says (output_as K.held K.faults out.old) (output_as K.held K.faults out.new)
        (catalog_refused_text fault.now record_number) Status.BadCatalog result }
{
    let mut writer = Writer::make(out);
    writer.put(b"refused catalog ");
    writer.put(fault);
    writer.put(b" ");
    writer.put_number(record_number);
    writer.put(b"\n");
    let written = writer.end();
    ended(written, Status::BadCatalog)
}

/// The lines of a text.
fn lines_of(alloc: Global, text: &[u8]) -> Result<Vec<&[u8]>, Memory>
    ensures { IfOk result (λ found. map (λ line. line.now) found.items ≡ lines text.now) }
{
    let mut found = Vec::new(alloc);
    let mut rest = text;
    while let Some((line, more)) = first_line(rest) {
        let Ok(()) = found.push(line) else {
            return Err(Memory);
        };
        rest = more;
    }
    Ok(found)
}
