//! Queries that are ready, from their texts.

ghost use Rattle.std.specs.Prelude.{◌≡◌, ◌<◌, ◌≤◌, true, All, length, slice_index_or, IfSome};
ghost use Rattle.query_run.specs.Made.{IsReadyFor};
ghost use Rattle.query_core.specs.Ready.{IsReady};

use super::outcomes::Asked;
use query_core::Ready;
use query_text::read;
use std::alloc::Global;
use topk_base::MAX_OBJECTS;

/// Whether there is such a source, and it has so many objects.
fn is_source(counts: &[u32], source: u32, count: u32) -> bool
    ensures { result ≡ true → (source < length counts.now) × (slice_index_or counts.now source 0 ≡ count) }
{
    let place = source as usize;
    place < counts.len() && counts[place] == count
}

/// Whether the sources of a query have as many objects as it counts.
fn is_over(counts: &[u32], ready: &Ready) -> bool
    ensures { result ≡ true → All (λ source. (source < length counts.now) × (slice_index_or counts.now source 0 ≡ ready.now.count)) ready.now.sources.items }
{
    ready
        .sources
        .iter()
        .all(|source| is_source(counts, *source, ready.count))
}

/// Of each source, whether it can be read in order: those that are named here answer grades alone. None without memory.
fn in_order(alloc: Global, sources: &[u32], by_grades: &[u32]) -> Option<Vec<bool>> {
    let mut sorted = Vec::new(alloc);
    for source in sources {
        let readable = !by_grades.contains(source);
        sorted.push(readable).ok()?;
    }
    Some(sorted)
}

/// The query of a text whose lists are these sources, each of so many objects, of which some answer grades alone. None where it is
/// no query over such lists, or none of them can be read in order.
#[tactic(auto, using(crate::proofs::Readable::has_to_read))]
fn ready_of(
    alloc: Global,
    text: &str,
    count: u32,
    sources: &[u32],
    by_grades: &[u32],
) -> Option<Ready>
    ensures { IfSome result IsReady }
{
    let sorted = in_order(alloc, sources, by_grades)?;
    let Ok(sources) = sources.to_vec(alloc) else {
        return None;
    };
    let Ok(query) = read(alloc, text.as_bytes()) else {
        return None;
    };
    let mut versions = Vec::new(alloc);
    let Ok(()) = versions.resize(sources.len(), 0) else {
        drop(query);
        drop(sources);
        return None;
    };
    let ready = Ready {
        query,
        count,
        sources,
        versions,
        sorted,
    };
    if ready.query.k > count
        || count > 200_000
        || ready.query.names.len() as usize != ready.sources.len()
        || ready.versions.len() != ready.sources.len()
        || ready.sorted.len() != ready.sources.len()
        || !ready.sorted.contains(&true)
    {
        drop(ready);
        return None;
    }
    Some(ready)
}

/// The same, over sources with these counts. None too where the sources aren't of one size.
fn ready_over(
    alloc: Global,
    counts: &[u32],
    text: &str,
    sources: &[u32],
    by_grades: &[u32],
) -> Option<Ready>
    ensures { IfSome result (IsReadyFor counts.now) }
{
    let first = sources.first().copied().unwrap_or(0);
    let count = counts.get(first as usize).copied().unwrap_or(0);
    let Some(ready) = ready_of(alloc, text, count, sources, by_grades) else {
        return None;
    };
    if !is_over(counts, &ready) {
        drop(ready);
        return None;
    }
    Some(ready)
}

/// Adds a query that is ready. False where there is none, or where there is no memory.
fn add_ready(
    alloc: Global,
    readies: &mut Vec<Ready>,
    counts: &[u32],
    asked: &Asked,
    by_grades: &[u32],
) -> bool
    requires { All (IsReadyFor counts.now) readies.old.items }
    ensures { result ≡ true → All (IsReadyFor counts.now) readies.new.items }
{
    let Some(ready) = ready_over(alloc, counts, asked.0, asked.1, by_grades) else {
        return false;
    };
    match readies.push(ready) {
        Ok(()) => true,
        Err(refused) => {
            drop(refused);
            false
        }
    }
}

/// The queries of a world, all ready. None where one is none, or where there is no memory.
pub fn readies_of(alloc: Global, counts: &[u32], asked: &[Asked]) -> Option<Vec<Ready>>
    ensures { IfSome result (λ readies. All (IsReadyFor counts.now) readies.items) }
{
    readies_beside(alloc, counts, asked, &[])
}

/// The same where some sources answer grades alone.
pub fn readies_beside(
    alloc: Global,
    counts: &[u32],
    asked: &[Asked],
    by_grades: &[u32],
) -> Option<Vec<Ready>>
    ensures { IfSome result (λ readies. All (IsReadyFor counts.now) readies.items) }
{
    let mut readies = Vec::new(alloc);
    for one in asked {
        if !add_ready(alloc, &mut readies, counts, one, by_grades) {
            let_go(readies);
            return None;
        }
    }
    Some(readies)
}

/// Lets queries go. Who owns some lets them go by this call, so that it is proved once.
pub fn let_go(readies: Vec<Ready>) {
    drop(readies);
}

/// Whether the counts are within the limits.
pub fn are_small(counts: &[u32]) -> bool
    ensures { result ≡ true → All (λ count. count ≤ MAX_OBJECTS) counts.now }
{
    counts.iter().all(|count| *count <= MAX_OBJECTS)
}
