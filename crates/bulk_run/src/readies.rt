//! Made queries, ready to run.

ghost use Rattle.std.specs.Prelude.{◌≡◌, ◌<◌, IfOk, replicate, true};
ghost use Rattle.topk_theory.specs.Transcript.{list_numbers};
ghost use Rattle.bulk_run.specs.Sums.{IsInput};
ghost use Rattle.bulk_run.specs.Endings.{IsMadeReady, AreMadeReady};

use super::Memory;
use super::input::BulkInput;
use made_inputs::made_query;
use query_core::Ready;
use std::alloc::Global;

/// The numbers of so many sources.
fn source_numbers(alloc: Global, lists: u8) -> Result<Vec<u32>, Memory>
    ensures { IfOk result (λ numbers. numbers.items ≡ list_numbers lists) }
{
    let mut numbers = Vec::new(alloc);
    for list in 0..u32::from(lists) {
        numbers.push(list)?;
    }
    Ok(numbers)
}

/// The versions of so many made lists: 0, since none is ever replaced.
fn first_versions(alloc: Global, lists: u8) -> Result<Vec<u64>, Memory>
    ensures { IfOk result (λ versions. versions.items ≡ replicate lists 0) }
{
    let mut versions = Vec::new(alloc);
    versions.resize(usize::from(lists), 0)?;
    Ok(versions)
}

/// That each of so many made lists can be read in order.
fn all_sorted(alloc: Global, lists: u8) -> Result<Vec<bool>, Memory>
    ensures { IfOk result (λ sorted. sorted.items ≡ replicate lists true) }
{
    let mut sorted = Vec::new(alloc);
    sorted.resize(usize::from(lists), true)?;
    Ok(sorted)
}

/// The query with a number, ready to run over the lists of the table.
fn made_ready(alloc: Global, number: u32, input: BulkInput) -> Result<Ready, Memory>
    requires { IsInput input }
    ensures { IfOk result (IsMadeReady input number) }
{
    let Ok(query) = made_query(alloc, number, input.count, input.lists) else {
        return Err(Memory);
    };
    let lists = query.expr.lists();
    let Ok(sources) = source_numbers(alloc, lists) else {
        drop(query);
        return Err(Memory);
    };
    let Ok(versions) = first_versions(alloc, lists) else {
        drop(query);
        drop(sources);
        return Err(Memory);
    };
    let Ok(sorted) = all_sorted(alloc, lists) else {
        drop(query);
        drop(sources);
        drop(versions);
        return Err(Memory);
    };
    Ok(Ready {
        query,
        count: input.count,
        sources,
        versions,
        sorted,
    })
}

/// The queries in the order of their numbers, each ready to run over the lists of the table.
pub(crate) fn made_readies(alloc: Global, input: BulkInput) -> Result<Vec<Ready>, Memory>
    requires { IsInput input }
    ensures { IfOk result (λ readies. AreMadeReady input readies.items) }
{
    let mut readies = Vec::new(alloc);
    for number in 0..input.queries {
        let ready = made_ready(alloc, number, input)?;
        readies.push(ready)?;
    }
    Ok(readies)
}
