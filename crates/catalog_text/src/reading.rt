//! Reading a catalog.

ghost use Rattle.std.specs.Prelude.{ℕ, List, option_map};
ghost use Rattle.csv_records.specs.Records.{records_of};
ghost use Rattle.catalog_text.specs.Judging.{Judges};
ghost use Rattle.catalog_text.specs.Listed.{listed_parts};
ghost use Rattle.catalog_text.specs.Taking.{IsTaken, FindsFault};

use super::catalog::{Catalog, CatalogFault};
use super::fields::{Parts, header_in, source_in};
use csv::ByteRecord;
use csv_records::{Memory, TakesRecords, read_records};
use std::alloc::Global;
use topk_base::MAX_SOURCES;

/// Reads a catalog: values separated by commas. The first record has the fields `name`, `place` and
/// `random`, and maybe a fourth, `sorted`. Each further record is a source, of which there are at most 64: the name of its list, a
/// place of 1 to 255 bytes, `yes` or `no` for random access, and, exactly where the first record has a fourth field,
/// `yes` or `no` for sorted access. Without that field each source allows sorted access; none may be without both.
/// A place is a file's path or the address
/// `http://HOST:PORT/PATH` of a server's list, as `location_of` reads them. No two sources have one name. The fault names the first
/// record that is wrong, or the first record where there is none.
///
/// *Cost*: one pass, and for each source three look-ups of its name.
pub fn read_catalog(alloc: Global, bytes: &[u8]) -> Result<Catalog, CatalogFault>
    ensures { Judges (records_of bytes.now) result }
{
    let mut reading = Reading {
        started: false,
        wide: false,
        catalog: Catalog::make(alloc),
        fault: None,
    };
    let Ok(()) = read_records(alloc, bytes, &mut reading) else {
        return Err(CatalogFault::Memory);
    };
    reading.end()
}

/// What was read of a catalog so far.
#[derive(Drop)]
struct Reading {
    /// Whether the header was read.
    started: bool,
    /// Whether the header has a fourth field, and each further record has to have one.
    wide: bool,
    catalog: Catalog,
    /// The fault of the first record at fault.
    fault: Option<CatalogFault>,
}

impl Reading {
    /// What the text is, where all of its records were taken in.
    fn end(self) -> Result<Catalog, CatalogFault>
        ensures { (records : List (List (List ℕ))) → IsTaken self records → Judges records result }
    {
        let Reading {
            started,
            wide: _,
            catalog,
            fault,
        } = self;
        if let Some(fault) = fault {
            return Err(fault);
        }
        if !started {
            return Err(CatalogFault::CatalogLine { line: 1 });
        }
        Ok(catalog)
    }
}

impl TakesRecords for Reading {
    ghost use Rattle.catalog_text.specs.Taking.{IsTaken};

    ghost Took = { IsTaken };

    fn take(&mut self, alloc: Global, row: &ByteRecord) -> Result<(), Memory> {
        if self.fault.is_some() {
            return Ok(());
        }
        if !self.started {
            let Some(wide) = header_in(row) else {
                self.fault = Some(CatalogFault::CatalogLine { line: 1 });
                return Ok(());
            };
            self.started = true;
            self.wide = wide;
            return Ok(());
        }
        let source = source_in(row, self.wide);
        let found = fault_of(&self.catalog, &source);
        if found.is_some() {
            self.fault = found;
            return Ok(());
        }
        let Some(parts) = source else {
            return Ok(());
        };
        match self.catalog.push(alloc, &parts) {
            Ok(()) => Ok(()),
            Err(_) => Err(Memory),
        }
    }
}

/// The fault of the next record, which says this, if it has one.
fn fault_of(catalog: &Catalog, source: &Option<Parts<'_>>) -> Option<CatalogFault>
    ensures { FindsFault catalog.now (option_map listed_parts source.now) result }
{
    let line = u64::from(catalog.len()) + 2;
    let Some(parts) = source else {
        return Some(CatalogFault::CatalogLine { line });
    };
    if catalog.len() >= MAX_SOURCES {
        return Some(CatalogFault::CatalogLine { line });
    }
    if catalog.find(parts.name).is_some() {
        return Some(CatalogFault::SameName { line });
    }
    None
}
