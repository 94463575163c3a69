//! What became of a query line.

ghost use Rattle.std.specs.Prelude.{OnOk, OnErr};
ghost use Rattle.std.specs.Option.{option_copied};
ghost use Rattle.std.specs.Io.KnownBytes.{Appends};
ghost use Rattle.tk_io.specs.Faults.{HasCause};
ghost use Rattle.tk_io.specs.Whole.{TookFront};
ghost use Rattle.cert_text.specs.Outcome.{outcome_text, IsOutcome};
ghost use Rattle.tk_io.specs.Pieces.{Puts};

use super::refusal::{Refusal, put_refusal};
use super::writing::put_certificate;
use machine_base::Answer;
use query_text::Query;
use tk_io::{Failed, Put, Sink, Writer};

/// What became of a query line.
#[derive(Drop)]
pub enum Outcome {
    /// It was answered.
    Answered(Answer),
    /// It was refused.
    Refused(Refusal),
}

/// Puts the text of the outcome of the query line with this number, over lists of `count` objects and
/// of these versions, behind the bytes that wait, so that the outcomes of several lines go out in
/// whole pieces. Takes no memory.
///
/// What an outcome comes with is said at `write_outcome`.
pub fn put_outcome<P: Put>(
    out: &mut P,
    line: u64,
    query: Option<&Query>,
    count: u32,
    versions: &[u64],
    outcome: &Outcome,
)
    requires { IsOutcome (option_copied query) versions.now outcome.now }
    ensures { Puts (P.at out.old) (P.at out.new)
        (outcome_text line (option_copied query.entry) count versions.now outcome.now) }
{
    match outcome {
        Outcome::Answered(answer) => match query {
            Some(query) => put_certificate(out, line, query, count, versions, answer),
            None => unreachable!(),
        },
        Outcome::Refused(refusal) => put_refusal(out, line, query, *refusal),
    }
}

/// Writes the outcome of the query line with this number, over lists of `count` objects and of these
/// versions: the certificate of an answer, or the line of a refusal. It goes out in pieces of
/// `tk_io::PIECE` bytes. After a failure a front of it was written. Takes no memory.
///
/// An answer comes with its query, which is over the transcript's lists, and `versions` has one member for each of these, in
/// their order; the query's costs are at most 1,000,000 each and the accesses fewer than 2^40. An answer of an algorithm that
/// guarantees a factor has an item. A refusal that names a list comes with the query that names it.
pub fn write_outcome<K: Sink>(
    out: &mut K,
    line: u64,
    query: Option<&Query>,
    count: u32,
    versions: &[u64],
    outcome: &Outcome,
) -> Result<(), Failed>
    requires { IsOutcome (option_copied query) versions.now outcome.now }
    ensures whole { OnOk result (Appends (K.held out.old) (K.held out.new)
        (outcome_text line (option_copied query.entry) count versions.now outcome.now)) }
    ensures front { OnErr result (TookFront (K.held out.old) (K.held out.new)
        (outcome_text line (option_copied query.entry) count versions.now outcome.now)) }
    ensures cause { HasCause (K.faults out.old) (K.faults out.new) result }
{
    let mut writer = Writer::make(out);
    put_outcome(&mut writer, line, query, count, versions, outcome);
    writer.end()
}
