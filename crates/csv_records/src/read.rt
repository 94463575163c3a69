//! Reading a text record by record.

ghost use Rattle.std.specs.Prelude.{◌∷◌, ◌++◌, [], ℕ, List, OnOk};
ghost use Rattle.csv.specs.Records.{fields_of};
ghost use Rattle.csv_records.specs.Records.{IsAtStart, records_from_start, records_of};

use super::Memory;
use csv::{ByteRecord, Reader, ReaderBuilder};
use std::alloc::Global;

/// What takes the records of a text in, one after another.
///
/// `Took` says which records have been taken in, in their order.
pub trait TakesRecords {
    ghost Took: { Self → List (List (List ℕ)) → Type 0 };

    /// Takes one more record in.
    fn take(&mut self, alloc: Global, row: &ByteRecord) -> Result<(), Memory>
        ensures { OnOk result ((records : List (List (List ℕ))) → Took self.old records → Took self.new (records ++ fields_of row.now ∷ [])) };
}

/// Takes in all records of a text. They are read with no header taken apart, with any number of
/// fields each, untrimmed. A byte order mark at the beginning is dropped, and empty lines are
/// skipped. After an error some records may have been taken in.
pub fn read_records<T: TakesRecords>(alloc: Global, text: &[u8], into: &mut T) -> Result<(), Memory>
    ensures { OnOk result (T.Took into.old [] → T.Took into.new (records_of text.now)) }
{
    let mut reader = ReaderBuilder::new()
        .has_headers(false)
        .flexible(true)
        .from_reader(alloc, text);
    read_all(alloc, &mut reader, into)
}

/// Takes in all records that a reader gives.
fn read_all<T: TakesRecords>(
    alloc: Global,
    reader: &mut Reader<&[u8]>,
    into: &mut T,
) -> Result<(), Memory>
    ensures { OnOk result ((text : List ℕ) → IsAtStart reader.old text → T.Took into.old [] → T.Took into.new (records_from_start text)) }
{
    let mut row = ByteRecord::new(alloc);
    for _ in 0..u64::MAX {
        match reader.read_byte_record(&mut row) {
            Ok(true) => into.take(alloc, &row)?,
            Ok(false) => return Ok(()),
            Err(_) => return Err(Memory),
        }
    }
    Err(Memory)
}
