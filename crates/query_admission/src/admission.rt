//! Admission of query lines.

ghost use Rattle.std.specs.Prelude.{◌≡◌, ◌≤◌, ◌<◌, ℕ, List, length, map, Ok, Err, IfOk};
ghost use Rattle.query_text.specs.Reading.{Reads};
ghost use Rattle.query_admission.specs.Causes.{most_queries};
ghost use Rattle.query_admission.specs.Admission.{Admits, IsReadAs};
ghost use Rattle.query_admission.specs.Screening.{Weighs, FitsOver, admitted_as};
ghost use Rattle.query_admission.specs.View.{View, AreListed, versions_at, sorted_at};

use super::Memory;
use super::admitted::Admitted;
use super::lists::{ListInfo, Lists};
use super::reading::{ReadLine, read_line};
use super::screen::screen;
use super::seek::{Sought, seek};
use cert_text::Refusal;
use query_core::Ready;
use query_text::Query;
use std::alloc::Global;
use topk_base::MAX_LISTS;

/// What a query comes to over lists: ready with its count, the numbers of its sources, the versions of its lists and
/// whether each offers sorted access, or refused.
#[derive(Drop)]
pub(crate) enum Weighed {
    Ready {
        count: u32,
        sources: Vec<u32>,
        versions: Vec<u64>,
        sorted: Vec<bool>,
    },
    Refused(Refusal),
}

/// What a query line comes to before it runs, over lists by name: the first refusal that holds, or
/// its query, ready to run. `line` is the line's number in the input, from 1.
///
/// The refusals come in this order: a line too many, the faults of the text, and then over the
/// lists that the query names, in its order, each by the first list that shows it: a name that no
/// list has, a list that wasn't opened, one of more than 200,000 objects, one that states another
/// size than the first, a `k` above that size, a list without random access where the algorithm
/// asks for grades, and a list without sorted access; `taz` reads those that have it, and is refused
/// with the first list where none has it.
///
/// *Cost*: `read_line` and `admit_read`.
pub fn admit<L: Lists>(
    alloc: Global,
    lists: &L,
    line: u64,
    bytes: &[u8],
) -> Result<Admitted, Memory>
    ensures { IfOk result (Admits (record { view = L.view lists.now; number = line; bytes = bytes.now })) }
{
    let Ok(read) = read_line(alloc, line, bytes) else {
        return Err(Memory);
    };
    admit_read(alloc, lists, read)
}

/// What a query line that was read comes to before it runs, over lists by name: what `admit` says of the line.
///
/// *Cost*: one `find` for each of its lists.
pub fn admit_read<L: Lists>(alloc: Global, lists: &L, line: ReadLine) -> Result<Admitted, Memory>
    requires { (number : ℕ) × (bytes : List ℕ) × IsReadAs number bytes line }
    ensures { (number : ℕ) → (bytes : List ℕ) → IsReadAs number bytes line
        → IfOk result (Admits (record { view = L.view lists.now; number = number; bytes = bytes })) }
{
    match line {
        ReadLine::Query(query) => admit_query(alloc, lists, query),
        ReadLine::Refused(refusal) => Ok(Admitted::Refused {
            refusal,
            query: None,
        }),
    }
}

/// What the query of a line comes to.
fn admit_query<L: Lists>(alloc: Global, lists: &L, query: Query) -> Result<Admitted, Memory>
    requires { (line : List ℕ) × Reads line (Ok query) }
    ensures { (number : ℕ) → (bytes : List ℕ) → number ≤ most_queries → Reads bytes (Ok query)
        → IfOk result (Admits (record { view = L.view lists.now; number = number; bytes = bytes })) }
{
    let weighed = weigh(alloc, lists, &query);
    admitted_as(query, weighed)
}

/// What a query that was weighed comes to, or a lack of memory.
fn admitted_as(query: Query, weighed: Result<Weighed, Memory>) -> Result<Admitted, Memory>
    ensures { result ≡ admitted_as query weighed }
{
    match weighed {
        Ok(
            Weighed::Ready {
                count,
                sources,
                versions,
                sorted,
            },
        ) => Ok(Admitted::Ready(Ready {
            query,
            count,
            sources,
            versions,
            sorted,
        })),
        Ok(Weighed::Refused(refusal)) => Ok(Admitted::Refused {
            refusal,
            query: Some(query),
        }),
        Err(memory) => Err(memory),
    }
}

/// Finds the lists of a query, and weighs it against what they say of themselves.
fn weigh<L: Lists>(alloc: Global, lists: &L, query: &Query) -> Result<Weighed, Memory>
    requires some { 0 < length query.now.names }
    requires few { length query.now.names ≤ MAX_LISTS }
    ensures { IfOk result (Weighs (L.view lists.now) query.now) }
{
    match seek(alloc, lists, &query.names) {
        Ok(Sought::Known(known)) => weigh_over(alloc, query, &known),
        Ok(Sought::Unknown { list }) => Ok(Weighed::Refused(Refusal::UnknownList { list })),
        Err(_) => Err(Memory),
    }
}

/// Weighs a query against what its lists say of themselves.
fn weigh_over(alloc: Global, query: &Query, known: &[ListInfo]) -> Result<Weighed, Memory>
    requires some { 0 < length known.now }
    requires few { length known.now ≤ MAX_LISTS }
    ensures { (view : View) → AreListed view query.now known.now → IfOk result (Weighs view query.now) }
{
    match screen(query, known) {
        Ok(count) => fits(alloc, known, count),
        Err(refusal) => Ok(Weighed::Refused(refusal)),
    }
}

/// What a query of this count comes to, over its lists.
fn fits(alloc: Global, known: &[ListInfo], count: u32) -> Result<Weighed, Memory>
    ensures { IfOk result (FitsOver known.now count) }
{
    let Ok(sources) = sources_of(alloc, known) else {
        return Err(Memory);
    };
    let Ok(versions) = versions_of(alloc, known) else {
        return Err(Memory);
    };
    let Ok(sorted) = sorted_of(alloc, known) else {
        return Err(Memory);
    };
    Ok(Weighed::Ready {
        count,
        sources,
        versions,
        sorted,
    })
}

/// The numbers of the sources of lists.
fn sources_of(alloc: Global, lists: &[ListInfo]) -> Result<Vec<u32>, Memory>
    ensures { IfOk result (λ sources. sources.items ≡ map (λ list. list.source) lists.now) }
{
    let mut sources = Vec::new(alloc);
    for list in lists {
        let Ok(()) = sources.push(list.source) else {
            return Err(Memory);
        };
    }
    Ok(sources)
}

/// The versions that lists had when they were opened.
fn versions_of(alloc: Global, lists: &[ListInfo]) -> Result<Vec<u64>, Memory>
    ensures { IfOk result (λ versions. versions.items ≡ versions_at lists.now) }
{
    let mut versions = Vec::new(alloc);
    for list in lists {
        let Ok(()) = versions.push(list.version) else {
            return Err(Memory);
        };
    }
    Ok(versions)
}

/// Whether each of these lists offers sorted access.
fn sorted_of(alloc: Global, lists: &[ListInfo]) -> Result<Vec<bool>, Memory>
    ensures { IfOk result (λ sorted. sorted.items ≡ sorted_at lists.now) }
{
    let mut sorted = Vec::new(alloc);
    for list in lists {
        let Ok(()) = sorted.push(list.sorted) else {
            return Err(Memory);
        };
    }
    Ok(sorted)
}
