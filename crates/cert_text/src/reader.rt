//! The lines of a certificate, read one after another.

ghost use Rattle.std.specs.Prelude.{◌≡◌, ◌↔◌, ◌+◌, ◌<◌, ◌≤◌, ◌^◌, length, codes, true, false, IsTrue, IfOk};
ghost use Rattle.topk_base.specs.Lines.{lines};
ghost use Rattle.cert_text.specs.Guarantee.{has_guarantee};
ghost use Rattle.cert_text.specs.Judging.{AreNames, Finds, SpellsNone, FindsQuery, SpellsAccesses, SpellsStopped, SpellsEnding, SpellsFound, SpellsVersioned, SpellsCounted, SpellsQueried, States, ending_of, found_of, counted_of, queried_of};

use super::algorithms::has_guarantee;
use super::factor::Guarantee;
use super::fault::CertFault;
use super::parts::{Figures, access_of, count_of, figures_of, guarantee_of, item_of, version_of};
use access_log::{Access, Item};
use query_text::{Memory, Names, Query, QueryFault, read};
use std::alloc::Global;
use topk_base::{first_line, rest_after};

/// What a certificate says behind the objects of an answer.
#[derive(Drop)]
pub(crate) struct Ending {
    pub(crate) guarantee: Option<Guarantee>,
    pub(crate) figures: Figures,
    pub(crate) accesses: Vec<Access>,
}

/// What a certificate says of an answer.
#[derive(Drop)]
pub(crate) struct Results {
    pub(crate) items: Vec<Item>,
    pub(crate) ending: Ending,
}

/// What a certificate says under its query: how many objects each list has, the versions of the lists, and the answer.
#[derive(Drop)]
pub(crate) struct Counted {
    pub(crate) count: u32,
    pub(crate) versions: Vec<u64>,
    pub(crate) results: Results,
}

/// What the first of some lines says of a list: its version, and which lines are left, by the number of the next one and their text.
#[derive(Clone, Copy)]
pub(crate) struct Stated<'t> {
    version: u64,
    next: u64,
    rest: &'t [u8],
}

/// The accesses, if no text is left after the line that ends a certificate.
fn end_accesses(accesses: Vec<Access>, number: u64, rest: &[u8]) -> Result<Vec<Access>, CertFault>
    requires { number + 1 < 2 ^ 64 }
    ensures { Finds (SpellsNone accesses.items) (λ accesses. accesses.items)
        (number + 1) (lines rest.now) result }
{
    match first_line(rest) {
        Some(_) => Err(CertFault::BadLine { line: number + 1 }),
        None => Ok(accesses),
    }
}

/// Whether a line is the one that ends a certificate.
fn is_end(line: &[u8]) -> bool
    ensures { IsTrue result ↔ (line.now ≡ codes "end") }
{
    line == b"end".as_slice()
}

/// The accesses that the lines from this number on spell, up to the line that ends a certificate.
fn read_accesses(
    alloc: Global,
    names: &Names,
    first: u64,
    text: &[u8],
) -> Result<Vec<Access>, CertFault>
    requires names { AreNames names.now }
    requires numbers { first + length text.now < 2 ^ 64 }
    ensures { Finds (SpellsAccesses names.now) (λ accesses. accesses.items)
        first (lines text.now) result }
{
    let mut accesses = Vec::new(alloc);
    let mut number = first;
    let mut rest = text;
    while let Some((line, more)) = first_line(rest) {
        if is_end(line) {
            return end_accesses(accesses, number, more);
        }
        let Some(access) = access_of(names, line) else {
            return Err(CertFault::BadLine { line: number });
        };
        let Ok(()) = accesses.push(access) else {
            return Err(CertFault::Memory);
        };
        number += 1;
        rest = more;
    }
    Err(CertFault::BadLine { line: number })
}

/// The figures and the accesses that the lines from this number on spell.
fn read_stopped(
    alloc: Global,
    names: &Names,
    first: u64,
    text: &[u8],
) -> Result<(Figures, Vec<Access>), CertFault>
    requires names { AreNames names.now }
    requires numbers { first + length text.now < 2 ^ 64 }
    ensures { Finds (SpellsStopped names.now) (λ stopped. (stopped.0, stopped.1.items))
        first (lines text.now) result }
{
    let Some((line, rest)) = first_line(text) else {
        return Err(CertFault::BadLine { line: first });
    };
    let Some(figures) = figures_of(line) else {
        return Err(CertFault::BadLine { line: first });
    };
    let accesses = read_accesses(alloc, names, first + 1, rest)?;
    Ok((figures, accesses))
}

/// The guarantee, the figures and the accesses that the lines from this number on spell.
fn read_guaranteed(
    alloc: Global,
    names: &Names,
    first: u64,
    text: &[u8],
) -> Result<Ending, CertFault>
    requires names { AreNames names.now }
    requires numbers { first + length text.now < 2 ^ 64 }
    ensures { Finds (SpellsEnding true names.now) ending_of first (lines text.now) result }
{
    let Some((line, rest)) = first_line(text) else {
        return Err(CertFault::BadLine { line: first });
    };
    let Some(guarantee) = guarantee_of(line) else {
        return Err(CertFault::BadLine { line: first });
    };
    let (figures, accesses) = read_stopped(alloc, names, first + 1, rest)?;
    Ok(Ending {
        guarantee: Some(guarantee),
        figures,
        accesses,
    })
}

/// The same where no guarantee is wanted.
fn read_unguaranteed(
    alloc: Global,
    names: &Names,
    first: u64,
    text: &[u8],
) -> Result<Ending, CertFault>
    requires names { AreNames names.now }
    requires numbers { first + length text.now < 2 ^ 64 }
    ensures { Finds (SpellsEnding false names.now) ending_of first (lines text.now) result }
{
    let (figures, accesses) = read_stopped(alloc, names, first, text)?;
    Ok(Ending {
        guarantee: None,
        figures,
        accesses,
    })
}

/// What stands behind the objects of an answer, from the line with this number on.
fn read_ending(
    alloc: Global,
    wanted: bool,
    names: &Names,
    first: u64,
    text: &[u8],
) -> Result<Ending, CertFault>
    requires names { AreNames names.now }
    requires numbers { first + length text.now < 2 ^ 64 }
    ensures { Finds (SpellsEnding wanted names.now) ending_of first (lines text.now) result }
{
    if wanted {
        return read_guaranteed(alloc, names, first, text);
    }
    read_unguaranteed(alloc, names, first, text)
}

/// The answer that the lines from this number on spell, with a guarantee where one is wanted.
fn read_found(
    alloc: Global,
    wanted: bool,
    names: &Names,
    first: u64,
    text: &[u8],
) -> Result<Results, CertFault>
    requires names { AreNames names.now }
    requires numbers { first + length text.now < 2 ^ 64 }
    ensures { Finds (SpellsFound wanted names.now) found_of first (lines text.now) result }
{
    let mut items = Vec::new(alloc);
    let mut number = first;
    let mut rest = text;
    while let Some((line, more)) = first_line(rest) {
        let Some(item) = item_of(line) else {
            let ending = read_ending(alloc, wanted, names, number, rest)?;
            return Ok(Results { items, ending });
        };
        let Ok(()) = items.push(item) else {
            return Err(CertFault::Memory);
        };
        number += 1;
        rest = more;
    }
    Err(CertFault::BadLine { line: number })
}

/// The version of the list with a name, where the line with this number gives it; else it is 0, and the line is left.
fn read_version<'t>(name: &[u8], number: u64, text: &'t [u8]) -> Stated<'t>
    requires { number + length text.now < 2 ^ 64 }
    ensures states { States name.now number (lines text.now) result }
    ensures shorter { result.next + length result.rest.now ≤ number + length text.now }
{
    let none = Stated {
        version: 0,
        next: number,
        rest: text,
    };
    let Some((line, rest)) = first_line(text) else {
        return none;
    };
    match version_of(name, line) {
        Some(version) => Stated {
            version,
            next: number + 1,
            rest,
        },
        None => none,
    }
}

/// The answer that the lines from this number on spell, and the versions of its lists.
fn read_versioned(
    alloc: Global,
    wanted: bool,
    names: &Names,
    first: u64,
    text: &[u8],
) -> Result<(Vec<u64>, Results), CertFault>
    requires names { AreNames names.now }
    requires numbers { first + length text.now < 2 ^ 64 }
    ensures { Finds (SpellsVersioned wanted names.now names.now) (λ versioned. (versioned.0.items, found_of versioned.1))
        first (lines text.now) result }
{
    let mut versions = Vec::new(alloc);
    let mut number = first;
    let mut rest = text;
    for name in names.iter() {
        let stated = read_version(name, number, rest);
        let Ok(()) = versions.push(stated.version) else {
            return Err(CertFault::Memory);
        };
        number = stated.next;
        rest = stated.rest;
    }
    let results = read_found(alloc, wanted, names, number, rest)?;
    Ok((versions, results))
}

/// The answer that the lines from this number on spell, the versions of its lists, and how many objects each list has.
fn read_counted(
    alloc: Global,
    wanted: bool,
    names: &Names,
    first: u64,
    text: &[u8],
) -> Result<Counted, CertFault>
    requires names { AreNames names.now }
    requires numbers { first + length text.now < 2 ^ 64 }
    ensures { Finds (SpellsCounted wanted names.now) counted_of first (lines text.now) result }
{
    let Some((line, rest)) = first_line(text) else {
        return Err(CertFault::BadLine { line: first });
    };
    let Some(count) = count_of(line) else {
        return Err(CertFault::BadLine { line: first });
    };
    let (versions, results) = read_versioned(alloc, wanted, names, first + 1, rest)?;
    Ok(Counted {
        count,
        versions,
        results,
    })
}

/// The query of a line, or None where it is the line of none.
fn read_query(alloc: Global, line: &[u8]) -> Result<Option<Query>, Memory>
    ensures { IfOk result (FindsQuery line.now) }
{
    let Some(text) = rest_after(b"query ", line) else {
        return Ok(None);
    };
    match read(alloc, text) {
        Ok(query) => Ok(Some(query)),
        Err(QueryFault::Memory) => Err(Memory),
        Err(_) => Ok(None),
    }
}

/// The answer that the lines from this number on spell, and its query.
pub(crate) fn read_queried(
    alloc: Global,
    first: u64,
    text: &[u8],
) -> Result<(Query, Counted), CertFault>
    requires { first + length text.now < 2 ^ 64 }
    ensures { Finds SpellsQueried queried_of first (lines text.now) result }
{
    let Some((line, rest)) = first_line(text) else {
        return Err(CertFault::BadLine { line: first });
    };
    let query = match read_query(alloc, line) {
        Ok(Some(query)) => query,
        Ok(None) => return Err(CertFault::BadLine { line: first }),
        Err(_) => return Err(CertFault::Memory),
    };
    let wanted = has_guarantee(query.algorithm);
    match read_counted(alloc, wanted, &query.names, first + 1, rest) {
        Ok(counted) => Ok((query, counted)),
        Err(fault) => {
            query.let_go();
            Err(fault)
        }
    }
}
