//! The command `compare`: a bundle, and what each algorithm reads for its query.

ghost use Rattle.std.specs.Prelude.{◌≡◌, ◌≤◌, ℕ, List, IfOk};
ghost use Rattle.bundle_text.specs.Bundle.{content, IsBundle};
ghost use Rattle.tk_io.specs.Pieces.{Puts};
ghost use Rattle.query_admission.specs.Admission.{IsAdmitted};
ghost use Rattle.command_line.specs.Shelves.{Shelf};
ghost use Rattle.command_line.specs.Calls.{input_as, output_as, outside_of, call_at};
ghost use Rattle.command_line.specs.Ends.{EndsReading, Says};
ghost use Rattle.bundle_calls.specs.Bundled.{bundle_line, lists_at};
ghost use Rattle.bundle_calls.specs.Outcomes.{SaysReply};
ghost use Rattle.bundle_calls.specs.Compare.{Compares, ComparesBundle, ComparedAreAnswered};
ghost use Rattle.bundle_calls.specs.Comparing.{MayBeSaid, IsSayable, comparison_text, comparison_status, compared_by, compared_text, figures_text};

use super::answering::write_reply;
use super::bundled::{Bundled, told_lists};
use super::figures::{Compared, Figures, compare_all};
use super::replies::{QUERY_LINE, Reply, let_go};
use bundle_text::{Bundle, BundleFault, read_bundle};
use cert_text::{Outcome, Refusal, Versions};
use command_line::{Status, ended};
use query_admission::{Admitted, LineOutcome, admit};
use query_core::Ready;
use query_text::{Algorithm, Query};
use std::alloc::Global;
use tk_io::{Intake, Put, ReadError, Sink, Writer, read_text};
use topk_base::{MAX_INPUT, Memory};

/// What is told of an input.
#[derive(Drop)]
pub(crate) enum Comparison {
    /// It is no bundle, or its query line is refused before it runs.
    Refused(Reply),
    /// It is a bundle, and this is what each algorithm reads for its query.
    Compared(Compared),
}

/// Reads a bundle from the input, and writes for each of `ta`, `nra`, `ca` and `fa` the line `NAME depth D sorted S random R cost C`: what this
/// algorithm reads for the bundle's query over the lists that it names. The query's own algorithm and its room play no part; its costs do. Where
/// the input is no bundle, or the query line is refused before it runs, it writes what `one` writes.
///
/// - `Done`: the four lines were written.
/// - `Partial`: the query line was refused.
/// - `BadInput`: the input is no bundle.
/// - `ReadFault`, `LongInput`: a read failed, or the input has more bytes than the limit; nothing was written.
/// - `WriteFault`: a write failed; a front of the text was written.
/// - `Memory`: no memory was left; nothing was written.
///
/// No other status comes.
pub fn compare<R: Intake, K: Sink>(alloc: Global, input: &mut R, out: &mut K) -> Status
    ensures reads { R.faults input.old ≤ R.faults input.new }
    ensures writes { K.faults out.old ≤ K.faults out.new }
    ensures ends { (words : List (List ℕ)) (shelf : Shelf) → EndsReading Compares (call_at words
        (outside_of (input_as R.left R.faults input.old) (output_as K.held K.faults out.old) shelf)
        (outside_of (input_as R.left R.faults input.new) (output_as K.held K.faults out.new) shelf)) result }
{
    match read_text(alloc, input, MAX_INPUT) {
        Ok(text) => compare_bytes(alloc, &text, out),
        Err(ReadError::Failed) => Status::ReadFault,
        Err(ReadError::Long) => Status::LongInput,
        Err(ReadError::Memory) => Status::Memory,
    }
}

/// Writes what is told of these bytes and ends so, or with a write fault; or nothing, where no memory was left.
fn compare_bytes<K: Sink>(alloc: Global, bytes: &[u8], out: &mut K) -> Status
    ensures counts { K.faults out.old ≤ K.faults out.new }
    ensures says { SaysReply Compares bytes.now (output_as K.held K.faults out.old) (output_as K.held K.faults out.new) result }
{
    match comparison_of(alloc, bytes) {
        Ok(comparison) => {
            let status = write_comparison(out, &comparison);
            let_comparison_go(comparison);
            status
        }
        Err(_) => Status::Memory,
    }
}

/// What is told of an input.
fn comparison_of(alloc: Global, bytes: &[u8]) -> Result<Comparison, Memory>
    ensures { IfOk result (MayBeSaid (Compares bytes.now)) }
{
    match read_bundle(alloc, bytes) {
        Ok(bundle) => compare_bundle(alloc, &bundle),
        Err(BundleFault::BadBundle { line }) => Ok(Comparison::Refused(Reply::NoBundle { line })),
        Err(BundleFault::Memory) => Err(Memory),
    }
}

/// What is told of a bundle.
fn compare_bundle(alloc: Global, bundle: &Bundle) -> Result<Comparison, Memory>
    requires { IsBundle (content bundle.now) }
    ensures { IfOk result (MayBeSaid (ComparesBundle (content bundle.now))) }
{
    match admit(alloc, &Bundled::of(bundle), QUERY_LINE, &bundle.query) {
        Ok(Admitted::Ready(ready)) => compare_ready(alloc, bundle, ready),
        Ok(Admitted::Refused { refusal, query }) => Ok(Comparison::Refused(Reply::Line(
            LineOutcome {
                query,
                count: 0,
                versions: Versions::from_vec(Vec::new(alloc)),
                outcome: Outcome::Refused(refusal),
            },
        ))),
        Err(_) => Err(Memory),
    }
}

/// What is told of a bundle whose query is ready.
fn compare_ready(alloc: Global, bundle: &Bundle, ready: Ready) -> Result<Comparison, Memory>
    requires bundle { IsBundle (content bundle.now) }
    requires admitted { IsAdmitted (bundle_line (content bundle.now)) ready }
    ensures { IfOk result (MayBeSaid (ComparesBundle (content bundle.now))) }
{
    let mut ready = ready;
    let compared = compare_over(alloc, bundle, &mut ready);
    ready.query.let_go();
    match compared {
        Ok(compared) => Ok(Comparison::Compared(compared)),
        Err(_) => Err(Memory),
    }
}

/// What each algorithm reads for a query that is ready, over the lists of its bundle.
fn compare_over(alloc: Global, bundle: &Bundle, ready: &mut Ready) -> Result<Compared, Memory>
    requires bundle { IsBundle (content bundle.now) }
    requires admitted { IsAdmitted (bundle_line (content bundle.now)) ready.old }
    ensures { IfOk result (λ compared. compared ≡ compared_by ready.old.query (lists_at (content bundle.now) ready.old.sources.items)) }
{
    let Ok(mut lists) = told_lists(alloc, bundle, &ready.sources) else {
        return Err(Memory);
    };
    compare_all(alloc, ready, &mut lists)
}

/// Writes what is told of an input and ends so, or with a write fault.
fn write_comparison<K: Sink>(out: &mut K, comparison: &Comparison) -> Status
    requires { IsSayable comparison.now }
    ensures counts { K.faults out.old ≤ K.faults out.new }
    ensures says { Says (output_as K.held K.faults out.old) (output_as K.held K.faults out.new)
        (comparison_text comparison.now) (comparison_status comparison.now) result }
{
    match comparison {
        Comparison::Refused(reply) => write_reply(out, reply),
        Comparison::Compared(compared) => write_compared(out, compared),
    }
}

/// Writes the line of each algorithm and ends so, or with a write fault.
fn write_compared<K: Sink>(out: &mut K, compared: &Compared) -> Status
    ensures counts { K.faults out.old ≤ K.faults out.new }
    ensures says { Says (output_as K.held K.faults out.old) (output_as K.held K.faults out.new)
        (compared_text compared.now) Status.Done result }
{
    let mut writer = Writer::make(out);
    put_compared(&mut writer, compared);
    let written = writer.end();
    ended(written, Status::Done)
}

/// Puts the line of each algorithm behind the bytes that wait.
fn put_compared<P: Put>(out: &mut P, compared: &Compared)
    ensures { Puts (P.at out.old) (P.at out.new) (compared_text compared.now) }
{
    put_figures(out, Algorithm::Ta, compared.ta);
    put_figures(out, Algorithm::Nra, compared.nra);
    put_figures(out, Algorithm::Ca, compared.ca);
    put_figures(out, Algorithm::Fa, compared.fa);
}

/// Puts the line of an algorithm behind the bytes that wait.
fn put_figures<P: Put>(out: &mut P, algorithm: Algorithm, figures: Figures)
    ensures { Puts (P.at out.old) (P.at out.new) (figures_text algorithm figures) }
{
    out.put(algorithm.word());
    out.put(b" depth ");
    out.put_number(figures.depth);
    out.put(b" sorted ");
    out.put_number(figures.sorted);
    out.put(b" random ");
    out.put_number(figures.random);
    out.put(b" cost ");
    out.put_number(figures.cost);
    out.put(b"\n");
}

/// Lets what is told of an input go.
fn let_comparison_go(comparison: Comparison) {
    if let Comparison::Refused(reply) = comparison {
        let_go(reply);
    }
}

/// A law: what is compared are the figures of what `one` answers by each of the algorithms.
pub fn compared_are_those_of_one()
    ensures { ComparedAreAnswered }
{}
