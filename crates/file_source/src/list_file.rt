//! The records of a list file.

ghost use Rattle.std.specs.Prelude.{◌≡◌, ◌&&◌, [], not, option_map, IfOk, OnOk};
ghost use Rattle.csv.specs.Records.{fields_of};
ghost use Rattle.file_source.specs.ListFile.{pair_in, row_of_pair, is_header_pair, list_records};
ghost use Rattle.std.specs.List.{list_any};
ghost use Rattle.std.specs.Option.{is_none};
ghost use Rattle.file_source.specs.Taking.{IsTaken, Puts};

use super::Memory;
use super::numbers::field_number;
use super::plain_rows::plain_rows;
use csv::ByteRecord;
use csv_records::{TakesRecords, read_records};
use ranked_list::Row;
use std::alloc::Global;
use topk_base::MAX_OBJECTS;

/// The records of a list file that have been read so far.
#[derive(Drop)]
pub(crate) struct Reading {
    /// Whether a record was read, the header among them.
    started: bool,
    /// Each record as its row, or None where it is no row.
    pub(crate) records: Vec<Option<Row>>,
    /// Whether some record is no row.
    pub(crate) broken: bool,
}

/// Reads a list file whole.
pub(crate) fn read_list(alloc: Global, bytes: &[u8]) -> Result<Reading, Memory>
    ensures records { IfOk result (λ r. r.records.items ≡ list_records bytes.now) }
    ensures broken { IfOk result (λ r. r.broken ≡ list_any is_none r.records.items) }
{
    let room = lines_within(bytes);
    if let Some(records) = plain_rows(alloc, bytes, room)? {
        return Ok(Reading {
            started: true,
            records,
            broken: false,
        });
    }
    let mut reading = Reading::begin(alloc, room)?;
    match read_records(alloc, bytes, &mut reading) {
        Ok(()) => Ok(reading),
        Err(_) => Err(Memory),
    }
}

/// How many lines these bytes have, at most as many as a list may have rows. For room alone: no clause depends on it.
fn lines_within(bytes: &[u8]) -> usize {
    let mut lines = 1;
    for byte in bytes {
        if *byte == b'\n' && lines < MAX_OBJECTS as usize {
            lines += 1;
        }
    }
    lines
}

impl Reading {
    /// Nothing was read, and there is room for so many records.
    fn begin(alloc: Global, room: usize) -> Result<Reading, Memory>
        ensures { IfOk result (λ r. IsTaken r []) }
    {
        let records = Vec::with_capacity(alloc, room)?;
        Ok(Reading {
            started: false,
            records,
            broken: false,
        })
    }

    /// Puts one more record.
    fn put(&mut self, row: Option<Row>) -> Result<(), Memory>
        ensures { OnOk result (Puts self.old self.new row) }
    {
        self.broken = self.broken || row.is_none();
        self.records.push(row)?;
        Ok(())
    }
}

impl TakesRecords for Reading {
    ghost use Rattle.file_source.specs.Taking.{IsTaken};

    ghost Took = { IsTaken };

    fn take(&mut self, _: Global, row: &ByteRecord) -> Result<(), csv_records::Memory> {
        let pair = pair_of(row);
        let skipped = is_skipped(self.started, pair);
        self.started = true;
        if skipped {
            return Ok(());
        }
        match self.put(row_of(pair)) {
            Ok(()) => Ok(()),
            Err(_) => Err(csv_records::Memory),
        }
    }
}

/// The two fields of a record that has exactly two.
fn pair_of(row: &ByteRecord) -> Option<(&[u8], &[u8])>
    ensures { option_map (λ pair. (pair.0.now, pair.1.now)) result ≡ pair_in (fields_of row.now) }
{
    let Some(first) = row.get(0) else {
        return None;
    };
    let Some(second) = row.get(1) else {
        return None;
    };
    if row.get(2).is_some() {
        return None;
    }
    Some((first, second))
}

/// Whether a record is the header before all others.
fn is_skipped(started: bool, pair: Option<(&[u8], &[u8])>) -> bool
    ensures { result ≡ (not started && is_header_pair (option_map (λ p. (p.0.now, p.1.now)) pair.entry)) }
{
    !started && is_header(pair)
}

/// Whether two fields are those of the header.
fn is_header(pair: Option<(&[u8], &[u8])>) -> bool
    ensures { result ≡ is_header_pair (option_map (λ p. (p.0.now, p.1.now)) pair.entry) }
{
    match pair {
        Some((object, grade)) => object == b"object".as_slice() && grade == b"grade".as_slice(),
        None => false,
    }
}

/// The row that two fields are.
fn row_of(pair: Option<(&[u8], &[u8])>) -> Option<Row>
    ensures { result ≡ row_of_pair (option_map (λ p. (p.0.now, p.1.now)) pair.entry) }
{
    let Some((object, grade)) = pair else {
        return None;
    };
    let Some(object) = field_number(object) else {
        return None;
    };
    let Some(grade) = field_number(grade) else {
        return None;
    };
    Some(Row { object, grade })
}
