//! Rows as text.

ghost use Rattle.std.specs.Prelude.{◌++◌, ◌∷◌, [], map};
ghost use Rattle.topk_base.specs.Lines.{unlines};
ghost use Rattle.bundle_text.specs.Bundle.{row_line};
ghost use Rattle.tk_io.specs.Pieces.{Puts};

use ranked_list::{MemList, Row};
use tk_io::Put;

/// Puts the line of a row behind the bytes that wait.
fn put_row<P: Put>(out: &mut P, row: Row)
    ensures { Puts (P.at out.old) (P.at out.new)
        (row_line row ++ 10 ∷ []) }
{
    out.put_number(u64::from(row.object));
    out.put(b",");
    out.put_number(u64::from(row.grade));
    out.put(b"\n");
}

/// Puts the lines of rows behind the bytes that wait: `OBJECT,GRADE`, from the top down.
pub fn put_rows<P: Put>(out: &mut P, rows: &MemList)
    ensures { Puts (P.at out.old) (P.at out.new)
        (unlines (map row_line rows.now)) }
{
    for row in rows.iter() {
        put_row(out, *row);
    }
}
