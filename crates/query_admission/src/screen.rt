//! Why a query isn't admitted over the lists that it names.

ghost use Rattle.std.specs.Prelude.{◌≡◌, ◌≤◌, ◌<◌, length, IfNone};
ghost use Rattle.std.specs.List.{position};
ghost use Rattle.query_text.specs.declared.query.Query.{Query as AnyQuery};
ghost use Rattle.query_text.specs.declared.algorithm.Algorithm.TheVariants.{Taz};
ghost use Rattle.query_admission.specs.View.{is_closed, is_large, differs, lacks_random, lacks_sorted, offers_sorted, unread_list, count_of};
ghost use Rattle.query_admission.specs.Causes.{Cause, ListsGive};
ghost use Rattle.query_admission.specs.Screening.{Decides, Screens};

use super::lists::ListInfo;
use cert_text::Refusal;
use query_core::asks_grades;
use query_text::{Algorithm, Query};
use topk_base::{MAX_LISTS, MAX_OBJECTS};

/// Whether a list states more objects than a list may have.
fn is_large(list: &ListInfo) -> bool
    ensures { result ≡ is_large list.now }
{
    match list.size {
        Some(size) => size > u64::from(MAX_OBJECTS),
        None => false,
    }
}

/// Whether a list states another size than this.
fn differs(n: u64, list: &ListInfo) -> bool
    ensures { result ≡ differs n list.now }
{
    match list.size {
        Some(size) => size != n,
        None => false,
    }
}

/// The number of the first list that wasn't opened.
fn first_closed(lists: &[ListInfo]) -> Option<usize>
    ensures { result ≡ position is_closed lists.now }
{
    lists.iter().position(|list| list.size.is_none())
}

/// The number of the first list that is too large.
fn first_large(lists: &[ListInfo]) -> Option<usize>
    ensures { result ≡ position is_large lists.now }
{
    lists.iter().position(|list| is_large(list))
}

/// The number of the first list that states another size than this.
fn first_differing(n: u64, lists: &[ListInfo]) -> Option<usize>
    ensures { result ≡ position (differs n) lists.now }
{
    lists.iter().position(|list| differs(n, list))
}

/// The number of the first list without random access.
fn first_lacking(lists: &[ListInfo]) -> Option<usize>
    ensures { result ≡ position lacks_random lists.now }
{
    lists.iter().position(|list| !list.random)
}

/// The number of the first list without sorted access.
fn first_unsorted(lists: &[ListInfo]) -> Option<usize>
    ensures { result ≡ position lacks_sorted lists.now }
{
    lists.iter().position(|list| !list.sorted)
}

/// The number of the first list with sorted access.
fn first_sorted(lists: &[ListInfo]) -> Option<usize>
    ensures { result ≡ position offers_sorted lists.now }
{
    lists.iter().position(|list| list.sorted)
}

/// The number of the first list, unless a list has sorted access.
fn none_sorted(lists: &[ListInfo]) -> Option<usize>
    ensures { result ≡ unread_list Taz lists.now }
{
    if first_sorted(lists).is_some() {
        return None;
    }
    Some(0)
}

/// The number of the list for which an algorithm can't read the lists in order, if there is one.
fn unread_list(algorithm: Algorithm, lists: &[ListInfo]) -> Option<usize>
    ensures { result ≡ unread_list algorithm lists.now }
{
    match algorithm {
        Algorithm::Ta => first_unsorted(lists),
        Algorithm::Nra => first_unsorted(lists),
        Algorithm::Ca => first_unsorted(lists),
        Algorithm::Fa => first_unsorted(lists),
        Algorithm::Theta { p: _, q: _ } => first_unsorted(lists),
        Algorithm::Early { depth: _ } => first_unsorted(lists),
        Algorithm::Taz => none_sorted(lists),
    }
}

/// The first list that wasn't opened, if there is one.
fn not_opened(lists: &[ListInfo]) -> Option<Refusal>
    requires { length lists.now ≤ MAX_LISTS }
    ensures why { (query : AnyQuery) → Decides (ListsGive query lists.now Cause.not_opened) result }
    ensures none { IfNone result (position is_closed lists.now ≡ None) }
{
    let Some(list) = first_closed(lists) else {
        return None;
    };
    Some(Refusal::NotOpened { list: list as u8 })
}

/// The first list that is too large, if there is one.
fn too_large(lists: &[ListInfo]) -> Option<Refusal>
    requires { length lists.now ≤ MAX_LISTS }
    ensures why { (query : AnyQuery) → Decides (ListsGive query lists.now Cause.too_large) result }
    ensures none { IfNone result (position is_large lists.now ≡ None) }
{
    let Some(list) = first_large(lists) else {
        return None;
    };
    let Some(count) = lists[list].size else {
        unreachable!();
    };
    Some(Refusal::TooLarge {
        list: list as u8,
        count,
    })
}

/// The count of a query: the size that its first list states.
fn count_of(lists: &[ListInfo]) -> Option<u32>
    requires { position is_large lists.now ≡ None }
    ensures { result ≡ count_of lists.now }
{
    Some(lists.first()?.size? as u32)
}

/// The first list that states another size than the first, if there is one.
fn counts_differ(lists: &[ListInfo]) -> Option<Refusal>
    requires few { length lists.now ≤ MAX_LISTS }
    requires small { position is_large lists.now ≡ None }
    ensures { (query : AnyQuery) → Decides (ListsGive query lists.now Cause.counts_differ) result }
{
    let Some(n) = count_of(lists) else {
        return None;
    };
    let Some(other) = first_differing(u64::from(n), lists) else {
        return None;
    };
    let Some(m) = lists[other].size else {
        unreachable!();
    };
    Some(Refusal::CountsDiffer {
        list: 0,
        n,
        other: other as u8,
        m: m as u32,
    })
}

/// Whether more objects are asked for than there are.
fn k_above_count(query: &Query, lists: &[ListInfo]) -> Option<Refusal>
    requires { position is_large lists.now ≡ None }
    ensures { Decides (ListsGive query.now lists.now Cause.k_above_count) result }
{
    let Some(n) = count_of(lists) else {
        return None;
    };
    if query.k > n {
        return Some(Refusal::KAboveCount { k: query.k, n });
    }
    None
}

/// The first list without random access, where the query's algorithm makes random accesses.
fn no_random(query: &Query, lists: &[ListInfo]) -> Option<Refusal>
    requires { length lists.now ≤ MAX_LISTS }
    ensures { Decides (ListsGive query.now lists.now Cause.no_random) result }
{
    if !asks_grades(query.algorithm) {
        return None;
    }
    let Some(list) = first_lacking(lists) else {
        return None;
    };
    Some(Refusal::NoRandom { list: list as u8 })
}

/// The first list without sorted access, where the query's algorithm reads all lists in order; where it reads those that have it, the
/// first list of all where none has it.
fn no_sorted(query: &Query, lists: &[ListInfo]) -> Option<Refusal>
    requires { length lists.now ≤ MAX_LISTS }
    ensures { Decides (ListsGive query.now lists.now Cause.no_sorted) result }
{
    let Some(list) = unread_list(query.algorithm, lists) else {
        return None;
    };
    Some(Refusal::NoSorted { list: list as u8 })
}

/// The first cause for which a query isn't admitted over its lists, or the count of the query.
pub(crate) fn screen(query: &Query, lists: &[ListInfo]) -> Result<u32, Refusal>
    requires some { 0 < length lists.now }
    requires few { length lists.now ≤ MAX_LISTS }
    ensures { Screens query.now lists.now result }
{
    if let Some(refusal) = not_opened(lists) {
        return Err(refusal);
    }
    if let Some(refusal) = too_large(lists) {
        return Err(refusal);
    }
    if let Some(refusal) = counts_differ(lists) {
        return Err(refusal);
    }
    if let Some(refusal) = k_above_count(query, lists) {
        return Err(refusal);
    }
    if let Some(refusal) = no_random(query, lists) {
        return Err(refusal);
    }
    if let Some(refusal) = no_sorted(query, lists) {
        return Err(refusal);
    }
    let Some(count) = count_of(lists) else {
        unreachable!();
    };
    Ok(count)
}
