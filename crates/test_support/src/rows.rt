//! The runner of rows: of each row that is wrong it prints the label, what came and what was wanted.

use std::fmt::Debug;
use std::str::from_utf8;

/// A row whose label is what is given, as it stands there.
#[macro_export]
macro_rules! row {
    ($given:expr, $wanted:expr) => {
        (stringify!($given), $given, $wanted)
    };
}

/// How many rows, which are a label, what is given and what is wanted, come to something else than what is wanted. `come` is given `with` beside
/// what a row gives: what allocates, and for threads the runtime.
pub fn wrong_rows<R: Eprint, C: Copy, G, W: PartialEq + Debug + Drop, F: Fn(C, &G) -> W>(
    rt: &R,
    with: C,
    rows: &[(&str, G, W)],
    come: F,
) -> usize
    requires { F.IsAlwaysCallable come }
{
    let mut wrong: usize = 0;
    for (label, given, wanted) in rows {
        let came = come(with, given);
        if came != *wanted {
            wrong = wrong.saturating_add(1);
            let _printed = eprintln!(rt; "{label}: {came:?} came in place of {wanted:?}");
        }
        drop(came);
    }
    wrong
}

/// The same of rows of which a text is wanted. In place of whole texts the first line that differs is printed.
pub fn wrong_texts<R: Eprint, C: Copy, G, F: Fn(C, &G) -> Option<Vec<u8>>>(
    rt: &R,
    with: C,
    rows: &[(&str, G, &str)],
    write: F,
) -> usize
    requires { F.IsAlwaysCallable write }
{
    let mut wrong: usize = 0;
    for (label, given, wanted) in rows {
        let came = write(with, given);
        if !is_text(rt, *label, came.as_deref(), *wanted) {
            wrong = wrong.saturating_add(1);
        }
        drop(came);
    }
    wrong
}

/// Whether the text that came is the one that is wanted. Else the first line that differs is printed.
fn is_text<R: Eprint>(rt: &R, label: &str, came: Option<&[u8]>, wanted: &str) -> bool {
    if came == Some(wanted.as_bytes()) {
        return true;
    }
    let read = match came {
        Some(bytes) => from_utf8(bytes),
        None => Ok("no text"),
    };
    let text = match read {
        Ok(text) => text,
        Err(_) => "bytes that are no text",
    };
    let mut lines = text.lines();
    let mut place: usize = 0;
    for wanted_line in wanted.lines() {
        place = place.saturating_add(1);
        let line = lines.next();
        if line != Some(wanted_line) {
            let _printed = eprintln!(rt;
                "{label}: line {place} is {line:?} in place of {wanted_line:?}"
            );
            return false;
        }
    }
    let line = lines.next();
    let _printed = eprintln!(rt; "{label}: behind line {place} came {line:?}");
    false
}
