//! Bundles: lists and a query in one text.

ghost use Rattle.std.specs.Prelude.{◌≡◌, IfOk, IfErr};
ghost use Rattle.std.specs.Prelude.{◌+◌, ◌<◌, ◌^◌, Err};
ghost use Rattle.topk_base.specs.Lines.{lines};
ghost use Rattle.bundle_text.specs.Bundle.{Content, content, Spells, IsReadAs, IsCause};
ghost use Rattle.bundle_text.specs.Reading.{read_on, read_all, read_part, query_part};
ghost use Rattle.bundle_text.specs.Tracking.{front_of, IsTracked, GivesBundle};

use super::line::{Line, line_of};
use super::reader::Reader;
use super::row_front::next_line;
use ranked_list::MemList;
use std::alloc::Global;
use thiserror::Error;
use topk_base::first_line;

/// Lists under their names, with the text of a query over them.
#[derive(Drop)]
pub struct Bundle {
    /// The names of the lists, in their order.
    pub names: Vec<Vec<u8>>,
    /// The lists, which are a table.
    pub lists: Vec<MemList>,
    /// The text after the word `query` and its blank.
    pub query: Vec<u8>,
}

/// Why a text wasn't read as a bundle.
#[derive(Debug, Drop, Error)]
pub enum BundleFault {
    /// The text is no bundle. The line, counted from 1, is the first such that no bundle begins
    /// with the lines up to and including it, or the number of lines plus one where all of them
    /// are the front of a bundle.
    #[error("line {line} is at fault")]
    BadBundle { line: u64 },
    /// No memory was left.
    #[error("no memory was left")]
    Memory,
}

impl From<ranked_list::Memory> for BundleFault {
    ghost use Rattle.std.specs.Prelude.{◌≡◌};
    ghost use Rattle.bundle_text.specs.declared.bundle.BundleFault.TheVariants.{Memory};

    ghost from_gives = { λ _ fault. fault ≡ Memory };

    fn from(_: ranked_list::Memory) -> BundleFault {
        BundleFault::Memory
    }
}

/// The bundle that the lines after a front spell, of which the first is the second of the text.
fn read_rest(alloc: Global, mut reader: Reader, bytes: &[u8]) -> Result<Bundle, BundleFault>
    requires { IsTracked reader }
    ensures { GivesBundle result (read_on (front_of reader) 2 (lines bytes.now)) }
{
    let mut rest = bytes;
    let mut number: u64 = 2;
    while let Some((line, more)) = next_line(rest) {
        if let Line::Query(query) = line {
            return read_end(alloc, reader, query, number, more);
        }
        let took = match reader.take_line(alloc, line) {
            Ok(took) => took,
            Err(_) => {
                drop(reader);
                return Err(BundleFault::Memory);
            }
        };
        if !took {
            drop(reader);
            return Err(BundleFault::BadBundle { line: number });
        }
        number += 1;
        rest = more;
    }
    drop(reader);
    Err(BundleFault::BadBundle { line: number })
}

/// The bundle that ends with a query line of this number, if no line is left after it.
fn read_end(
    alloc: Global,
    reader: Reader,
    query: &[u8],
    number: u64,
    rest: &[u8],
) -> Result<Bundle, BundleFault>
    requires { number + 1 < 2 ^ 64 }
    ensures { GivesBundle result (read_part (front_of reader) number (lines rest.now) (λ front. Err number) (query_part query.now)) }
{
    if !reader.is_whole() {
        drop(reader);
        return Err(BundleFault::BadBundle { line: number });
    }
    if let Some(_) = first_line(rest) {
        drop(reader);
        return Err(BundleFault::BadBundle { line: number + 1 });
    }
    Ok(reader.end(alloc, query)?)
}

/// The bundle that the lines of a text spell.
fn read_lines(alloc: Global, bytes: &[u8]) -> Result<Bundle, BundleFault>
    ensures { GivesBundle result (read_all (lines bytes.now)) }
{
    let Some((text, rest)) = first_line(bytes) else {
        return Err(BundleFault::BadBundle { line: 1 });
    };
    let Line::Heading(name) = line_of(text) else {
        return Err(BundleFault::BadBundle { line: 1 });
    };
    let reader = Reader::open(alloc, name)?;
    read_rest(alloc, reader, rest)
}

/// Reads a bundle: sections, each with the line `list NAME` and then a line `OBJECT,GRADE` for
/// each row, and at the end the line `query TEXT`.
///
/// There are 1 to 64 lists, whose names differ, of 1 to 200,000 rows each over the same objects.
/// In a list no object comes twice, and the grades, from 0 to 1,000,000, never rise.
///
/// *Cost*: one pass over the bytes, and for each row a look-up of its object by number.
pub fn read_bundle(alloc: Global, bytes: &[u8]) -> Result<Bundle, BundleFault>
    // What is read is spelled so, and is a bundle.
    ensures found { IfOk result (λ bundle. Spells (lines bytes.now) (content bundle)) }
    // What spells a bundle is read as that bundle, unless memory was refused.
    ensures reads { (c : Content) → Spells (lines bytes.now) c → IsReadAs c result }
    // Else the first line is named with which no bundle begins.
    ensures fault { IfErr result (IsCause (lines bytes.now)) }
{
    read_lines(alloc, bytes)
}
