//! A table as text.

ghost use Rattle.std.specs.Prelude.{◌++◌, ◌∷◌, [], length, OnOk, OnErr};
ghost use Rattle.std.specs.Io.KnownBytes.{Appends};
ghost use Rattle.topk_base.specs.Lines.{unlines};
ghost use Rattle.bundle_text.specs.Bundle.{list_line, section, sections};
ghost use Rattle.bundle_text.specs.Numbered.{list_name, list_names};
ghost use Rattle.tk_io.specs.Faults.{HasCause};
ghost use Rattle.tk_io.specs.Pieces.{Puts};
ghost use Rattle.tk_io.specs.Whole.{TookFront};

use super::rows::put_rows;
use ranked_list::MemList;
use tk_io::{Failed, Put, Sink, Writer};

/// Puts the line that begins the list with this number, from 1, behind the bytes that wait.
fn put_heading<P: Put>(out: &mut P, number: u64)
    ensures { Puts (P.at out.old) (P.at out.new)
        (list_line (list_name number) ++ 10 ∷ []) }
{
    out.put(b"list l");
    out.put_number(number);
    out.put(b"\n");
}

/// Puts the section of the list with this number behind the bytes that wait.
fn put_section<P: Put>(out: &mut P, number: u64, rows: &MemList)
    ensures { Puts (P.at out.old) (P.at out.new)
        (unlines (section (list_name number) rows.now)) }
{
    put_heading(out, number);
    put_rows(out, rows);
}

/// Puts the sections of lists behind the bytes that wait.
fn put_sections<P: Put>(out: &mut P, lists: &[MemList])
    ensures { Puts (P.at out.old) (P.at out.new)
        (unlines (sections (list_names (length lists.now)) lists.now)) }
{
    for place in 0..lists.len() {
        put_section(out, place as u64 + 1, &lists[place]);
    }
}

/// Writes lists under the names `l1`, `l2` and so on, as the sections of a bundle: the line `list NAME`,
/// and then a line `OBJECT,GRADE` for each row, from the top down. The text goes out in pieces of
/// `tk_io::PIECE` bytes. Takes no memory.
///
/// # Errors
///
/// [`Failed`] where a write failed. The stream then took a front of the text.
///
/// *Cost*: a copy of the bytes; a write for each 8,192 of them. Takes no memory.
pub fn write_table<K: Sink>(out: &mut K, lists: &[MemList]) -> Result<(), Failed>
    ensures whole { OnOk result (Appends (K.held out.old) (K.held out.new)
        (unlines (sections (list_names (length lists.now)) lists.now))) }
    ensures front { OnErr result (TookFront (K.held out.old) (K.held out.new)
        (unlines (sections (list_names (length lists.now)) lists.now))) }
    ensures cause { HasCause (K.faults out.old) (K.faults out.new) result }
{
    let mut writer = Writer::make(out);
    put_sections(&mut writer, lists);
    writer.end()
}
