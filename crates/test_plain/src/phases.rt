//! What the combined algorithm asks by random access: unknown grades, and the choice of a phase.

ghost use Rattle.std.specs.Prelude.{◌≡◌, ◌≤◌, ◌<◌, ◌&&◌, IfOk, OnOk, length, map, nat_lt, is_none, ◌++◌, [], ◌∷◌, if◌then◌else◌};
ghost use Rattle.topk_theory.specs.declared.access.Access.TheVariants.{Random as RandomAt};
ghost use Rattle.ranked_list.specs.Table.{grade_in};
ghost use Rattle.topk_theory.specs.Bounds.{known_grade, high};
ghost use Rattle.topk_theory.specs.NoRandom.{exceeds};
ghost use Rattle.topk_theory.specs.Combined.{phase_length, unknown_lists, missing_grades, candidates, by_high, choice, phase_after};
ghost use Rattle.monotone_fn.specs.Shape.{list_count};
ghost use Rattle.monotone_fn.specs.Value.{value};
ghost use Rattle.test_plain.specs.Capped.{AreCapped};

use super::bounds::{high, known_grade, seen_objects};
use super::no_random::{exceeds, kth_low};
use super::order::first_k;
use super::table::grade_in;
use monotone_fn::{Costs, Expr};
use ranked_list::{Item, MemList};
use std::alloc::Global;
use topk_base::{MAX_LISTS, Memory};
use topk_theory::Access;

/// How many rows of each list come between two random phases.
pub fn phase_length(costs: Costs) -> u32
    requires { 1 ≤ costs.sorted }
    ensures { result ≡ phase_length costs.sorted costs.random }
{
    (costs.random / costs.sorted).max(1)
}

/// Whether no access gave the grade of an object in a list.
fn is_unknown(accesses: &[Access], list: u8, object: u32) -> bool
    ensures { result ≡ is_none (known_grade accesses.now object list) }
{
    known_grade(accesses, list, object).is_none()
}

/// Whether some grade of an object is unknown.
fn is_open(accesses: &[Access], lists: u8, object: u32) -> bool
    ensures { result ≡ nat_lt 0 (length (unknown_lists lists accesses.now object)) }
{
    for list in 0..lists {
        if is_unknown(accesses, list, object) {
            return true;
        }
    }
    false
}

/// Adds the random access of an object in a list, where its grade there is unknown.
fn add_unknown(
    missing: &mut Vec<Access>,
    accesses: &[Access],
    list: u8,
    rows: &MemList,
    object: u32,
) -> Result<(), Memory>
    ensures { OnOk result (missing.new.items ≡ (if is_none (known_grade accesses.now object list)
        then missing.old.items ++ RandomAt list object (grade_in rows.now object) ∷ []
        else missing.old.items)) }
{
    if !is_unknown(accesses, list, object) {
        return Ok(());
    }
    missing.push(Access::Random {
        list,
        object,
        grade: grade_in(rows, object),
    })?;
    Ok(())
}

/// Adds the random accesses that get the unknown grades of an object, in the order of the lists.
pub fn add_missing_grades(
    missing: &mut Vec<Access>,
    lists: &[MemList],
    accesses: &[Access],
    object: u32,
) -> Result<(), Memory>
    requires { length lists.now ≤ MAX_LISTS }
    ensures { OnOk result (missing.new.items ≡ missing.old.items ++ missing_grades lists.now accesses.now object) }
{
    for (list, rows) in lists.iter().enumerate() {
        add_unknown(missing, accesses, list as u8, rows, object)?;
    }
    Ok(())
}

/// Whether a high is viable where this is the k-th largest low, and some grade of its object is unknown.
fn may_be_asked(accesses: &[Access], expr: &Expr, bound: Option<u64>, object: u32) -> bool
    requires { AreCapped accesses.now }
    ensures { result ≡ (exceeds bound (high (value expr.now) (list_count expr.now) accesses.now object)
        && nat_lt 0 (length (unknown_lists (list_count expr.now) accesses.now object))) }
{
    exceeds(bound, high(accesses, expr, object)) && is_open(accesses, expr.lists(), object)
}

/// The seen objects that a random phase may ask for.
fn candidates(alloc: Global, accesses: &[Access], expr: &Expr, k: u32) -> Result<Vec<u32>, Memory>
    requires { AreCapped accesses.now }
    ensures { IfOk result (λ objects. objects.items ≡ candidates (value expr.now) k (list_count expr.now) accesses.now) }
{
    let seen = seen_objects(alloc, accesses)?;
    let bound = kth_low(alloc, accesses, expr, k)?;
    let open = seen
        .iter()
        .filter(|object| may_be_asked(accesses, expr, bound, **object))
        .copied()
        .collect(alloc)?;
    Ok(open)
}

/// An object with its high as both bounds.
fn by_high(accesses: &[Access], expr: &Expr, object: u32) -> Item
    requires { AreCapped accesses.now }
    ensures { result ≡ by_high (value expr.now) (list_count expr.now) accesses.now object }
{
    let high = high(accesses, expr, object);
    Item {
        object,
        low: high,
        high,
    }
}

/// Objects with their highs as both bounds.
fn all_by_high(
    alloc: Global,
    accesses: &[Access],
    expr: &Expr,
    objects: &[u32],
) -> Result<Vec<Item>, Memory>
    requires { AreCapped accesses.now }
    ensures { IfOk result (λ items. items.items ≡ map (by_high (value expr.now) (list_count expr.now) accesses.now) objects.now) }
{
    let items = objects
        .iter()
        .map(|object| by_high(accesses, expr, *object))
        .collect(alloc)?;
    Ok(items)
}

/// The choice of a random phase after these accesses, if there is one.
fn choice(alloc: Global, accesses: &[Access], expr: &Expr, k: u32) -> Result<Option<u32>, Memory>
    requires { AreCapped accesses.now }
    ensures { IfOk result (λ chosen. chosen ≡ choice (value expr.now) k (list_count expr.now) accesses.now) }
{
    let open = candidates(alloc, accesses, expr, k)?;
    let items = all_by_high(alloc, accesses, expr, &open)?;
    let first = first_k(items, 1);
    Ok(first.first().map(|item| item.object))
}

/// What follows the row of a depth after these accesses, by phases of this length.
pub fn phase_after(
    alloc: Global,
    lists: &[MemList],
    accesses: &[Access],
    expr: &Expr,
    k: u32,
    phase: u32,
    depth: u32,
) -> Result<Vec<Access>, Memory>
    requires few { length lists.now ≤ MAX_LISTS }
    requires lists { length lists.now ≡ list_count expr.now }
    requires capped { AreCapped accesses.now }
    requires phase { 1 ≤ phase }
    ensures { IfOk result (λ following. following.items ≡ phase_after (value expr.now) k phase depth lists.now accesses.now) }
{
    let mut following = Vec::new(alloc);
    if depth % phase != 0 {
        return Ok(following);
    }
    if let Some(object) = choice(alloc, accesses, expr, k)? {
        add_missing_grades(&mut following, lists, accesses, object)?;
    }
    Ok(following)
}
