//! The line of sums, written.

ghost use Rattle.std.specs.Prelude.{OnOk, OnErr};
ghost use Rattle.std.specs.Io.KnownBytes.{Appends};
ghost use Rattle.tk_io.specs.Faults.{HasCause};
ghost use Rattle.tk_io.specs.Pieces.{Puts};
ghost use Rattle.tk_io.specs.Whole.{TookFront};
ghost use Rattle.bulk_run.specs.Text.{figure, accesses_text, sums_text};

use super::sums::BulkSums;
use tk_io::{Failed, Put, Sink, Writer};

/// Puts what stands before a figure, and the figure, behind the bytes that wait.
fn put_figure<P: Put>(out: &mut P, before: &[u8], number: u64)
    ensures { Puts (P.at out.old) (P.at out.new) (figure before.now number) }
{
    out.put(before);
    out.put_number(number);
}

/// Puts the figures of the accesses and the values, and the end of the line, behind the bytes that wait.
fn put_accesses<P: Put>(out: &mut P, sums: &BulkSums)
    ensures { Puts (P.at out.old) (P.at out.new) (accesses_text sums.now) }
{
    put_figure(out, b" sorted ", sums.sorted);
    put_figure(out, b" random ", sums.random);
    put_figure(out, b" values ", sums.values);
    out.put(b"\n");
}

/// Puts the line of sums behind the bytes that wait.
fn put_sums<P: Put>(out: &mut P, sums: &BulkSums)
    ensures { Puts (P.at out.old) (P.at out.new) (sums_text sums.now) }
{
    put_figure(out, b"bulk queries ", sums.queries);
    put_figure(out, b" answered ", sums.answered);
    put_figure(out, b" depth ", sums.depth);
    put_accesses(out, sums);
}

/// Writes the line of sums: `bulk queries QUERIES answered ANSWERED depth DEPTH sorted SORTED random RANDOM values VALUES`. Takes no
/// memory.
///
/// # Errors
///
/// [`Failed`] where a write failed. The stream then took a front of the line.
pub fn write_sums<K: Sink>(out: &mut K, sums: &BulkSums) -> Result<(), Failed>
    ensures whole { OnOk result (Appends (K.held out.old) (K.held out.new) (sums_text sums.now)) }
    ensures front { OnErr result (TookFront (K.held out.old) (K.held out.new) (sums_text sums.now)) }
    ensures cause { HasCause (K.faults out.old) (K.faults out.new) result }
{
    let mut writer = Writer::make(out);
    put_sums(&mut writer, sums);
    writer.end()
}
