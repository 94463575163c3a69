//! Reading query lines, before their lists are looked at.

ghost use Rattle.std.specs.Prelude.{◌≡◌, ◌++◌, ◌∷◌, [], IfOk, OnOk, map};
ghost use Rattle.query_admission.specs.Admission.{IsReadAs};
ghost use Rattle.query_admission.specs.declared.reading.ReadLine.{ReadLine as AnyReadLine};
ghost use Rattle.catalog_open.specs.Wanted.{AreRead};

use super::Memory;
use query_admission::{ReadLine, read_line};
use std::alloc::Global;

/// Lets lines that were read go. Who owns some lets them go by this call, so that it is proved once.
pub fn let_lines_go(read: Vec<ReadLine>) {
    drop(read);
}

/// Reads query lines, which are numbered from 1.
///
/// *Cost*: `read_line` for each line.
pub fn read_lines(alloc: Global, lines: &[&[u8]]) -> Result<Vec<ReadLine>, Memory>
    ensures { IfOk result (λ read. AreRead (map (λ line. line.now) lines.now) read.items) }
{
    let mut read = Vec::new(alloc);
    match read_into(alloc, lines, &mut read) {
        Ok(()) => Ok(read),
        Err(_) => {
            let_lines_go(read);
            Err(Memory)
        }
    }
}

/// Reads lines into a list that is empty.
fn read_into(alloc: Global, lines: &[&[u8]], read: &mut Vec<ReadLine>) -> Result<(), Memory>
    requires { read.old.items ≡ [] }
    ensures { OnOk result (AreRead (map (λ line. line.now) lines.now) read.new.items) }
{
    let mut number: u64 = 0;
    for line in lines {
        number += 1;
        read_next(alloc, number, line, read)?;
    }
    Ok(())
}

/// Reads one line more.
fn read_next(
    alloc: Global,
    number: u64,
    bytes: &[u8],
    read: &mut Vec<ReadLine>,
) -> Result<(), Memory>
    ensures { OnOk result ((line : AnyReadLine) × IsReadAs number bytes.now line × (read.new.items ≡ read.old.items ++ line ∷ [])) }
{
    let Ok(line) = read_line(alloc, number, bytes) else {
        return Err(Memory);
    };
    match read.push(line) {
        Ok(()) => Ok(()),
        Err(refused) => {
            drop(refused);
            Err(Memory)
        }
    }
}
