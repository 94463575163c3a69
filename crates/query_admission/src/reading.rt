//! A query line before its lists are looked at.

ghost use Rattle.std.specs.Prelude.{◌≡◌, IfOk};
ghost use Rattle.query_admission.specs.Causes.{text_refusal};
ghost use Rattle.query_admission.specs.Admission.{IsReadAs};

use super::Memory;
use cert_text::Refusal;
use query_text::{Query, QueryFault, read};
use std::alloc::Global;
use topk_base::MAX_QUERIES;

/// What a query line comes to before its lists are looked at.
#[derive(Drop)]
pub enum ReadLine {
    /// It is refused whatever lists there are: it is one too many, or its text is at fault.
    Refused(Refusal),
    /// The query that it spells.
    Query(Query),
}

/// Reads a query line. `line` is its number in the input, from 1. A line too many isn't read, and is refused as that.
///
/// *Cost*: the reading of the line.
pub fn read_line(alloc: Global, line: u64, bytes: &[u8]) -> Result<ReadLine, Memory>
    ensures { IfOk result (IsReadAs line bytes.now) }
{
    if line > MAX_QUERIES {
        return Ok(ReadLine::Refused(Refusal::ManyQueries {
            limit: MAX_QUERIES as u32,
        }));
    }
    match read(alloc, bytes) {
        Ok(query) => Ok(ReadLine::Query(query)),
        Err(fault) => match refusal_of(fault) {
            Some(refusal) => Ok(ReadLine::Refused(refusal)),
            None => Err(Memory),
        },
    }
}

/// The refusal of a line whose text has this fault, or None for lack of memory.
fn refusal_of(fault: QueryFault) -> Option<Refusal>
    ensures { result ≡ text_refusal fault }
{
    match fault {
        QueryFault::LongLine { limit } => Some(Refusal::LongLine { limit }),
        QueryFault::Syntax { at } => Some(Refusal::Syntax { at }),
        QueryFault::Number { at } => Some(Refusal::Number { at }),
        QueryFault::TooManyLists { at } => Some(Refusal::TooManyLists { at }),
        QueryFault::BadTheta { p, q } => Some(Refusal::BadTheta { p, q }),
        QueryFault::TooManyNodes { nodes } => Some(Refusal::TooManyNodes { nodes }),
        QueryFault::TooDeep { depth } => Some(Refusal::TooDeep { depth }),
        QueryFault::TooBig { node } => Some(Refusal::TooBig { node }),
        QueryFault::Memory => None,
    }
}
