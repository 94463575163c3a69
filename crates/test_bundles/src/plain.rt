//! The certificate of what the plain program computes. A call that adds to a text tells whether it could.

ghost use Rattle.std.specs.Prelude.{◌≤◌, IfSome, OnSome};
ghost use Rattle.test_plain.specs.Posed.{IsPosed};

use super::bundles::NAMES;
use super::texts::add_line;
use bundle_text::read_bundle;
use query_text::{Algorithm, Costs, Query, read};
use ranked_list::{Item, MemList, is_table};
use std::alloc::Global;
use test_plain::{ca_answer, ca_run, fa_answer, fa_run, nra_answer, nra_run, ta_answer, ta_run};
use topk_theory::Access;

/// What the plain program answers to a query. None for an algorithm that it doesn't have.
fn plain_items(alloc: Global, lists: &[MemList], query: &Query, costs: Costs) -> Option<Vec<Item>>
    requires posed { IsPosed lists.now query.now.expr }
    requires costs { 1 ≤ costs.sorted }
{
    let expr = &query.expr;
    match query.algorithm {
        Algorithm::Ta => ta_answer(alloc, lists, expr, query.k).ok(),
        Algorithm::Nra => nra_answer(alloc, lists, expr, query.k).ok(),
        Algorithm::Ca => ca_answer(alloc, lists, expr, query.k, costs).ok(),
        Algorithm::Fa => fa_answer(alloc, lists, expr, query.k).ok(),
        Algorithm::Theta { .. } | Algorithm::Early { .. } | Algorithm::Taz => None,
    }
}

/// What it reads.
fn plain_accesses(
    alloc: Global,
    lists: &[MemList],
    query: &Query,
    costs: Costs,
) -> Option<Vec<Access>>
    requires posed { IsPosed lists.now query.now.expr }
    requires costs { 1 ≤ costs.sorted }
{
    let expr = &query.expr;
    match query.algorithm {
        Algorithm::Ta => ta_run(alloc, lists, expr, query.k).ok(),
        Algorithm::Nra => nra_run(alloc, lists, expr, query.k).ok(),
        Algorithm::Ca => ca_run(alloc, lists, expr, query.k, costs).ok(),
        Algorithm::Fa => fa_run(alloc, lists, query.k).ok(),
        Algorithm::Theta { .. } | Algorithm::Early { .. } | Algorithm::Taz => None,
    }
}

/// Adds the line of an item.
fn add_item(alloc: Global, item: &Item, text: &mut String) -> bool {
    let (object, low, high) = (item.object, item.low, item.high);
    add_line(text, format!(in alloc; "answer {object} {low} {high}\n"))
}

/// Adds the first lines of a certificate, and its answer.
fn add_answer(alloc: Global, query: &str, count: u32, items: &[Item], text: &mut String) -> bool {
    let head = format!(in alloc; "certificate 1\nquery {query}\ncount {count}\n");
    if !add_line(text, head) {
        return false;
    }
    for item in items {
        if !add_item(alloc, item, text) {
            return false;
        }
    }
    true
}

/// Adds the line of an access.
fn add_access(alloc: Global, access: &Access, text: &mut String) -> bool {
    let Some(name) = NAMES.get(access.list() as usize) else {
        return false;
    };
    let sort = if access.is_sorted() { 's' } else { 'r' };
    let (object, grade) = (access.object(), access.grade());
    add_line(text, format!(in alloc; "{sort} {name} {object} {grade}\n"))
}

/// What so many accesses cost. They are few.
fn cost_of(sorted: usize, random: usize, costs: Costs) -> u64 {
    let sorted = u64::from(costs.sorted).saturating_mul(sorted as u64);
    let random = u64::from(costs.random).saturating_mul(random as u64);
    sorted.saturating_add(random)
}

/// How deep list A is read, which is as deep as any, and how many accesses are sorted and random.
fn figures_of(accesses: &[Access]) -> (usize, usize, usize) {
    let mut depth: usize = 0;
    let mut sorted: usize = 0;
    let mut random: usize = 0;
    for access in accesses {
        if !access.is_sorted() {
            random = random.saturating_add(1);
            continue;
        }
        sorted = sorted.saturating_add(1);
        if access.list() == 0 {
            depth = depth.saturating_add(1);
        }
    }
    (depth, sorted, random)
}

/// Adds the stop line: the depth, and what was read at these costs.
fn add_stop(alloc: Global, accesses: &[Access], costs: Costs, text: &mut String) -> bool {
    let (depth, sorted, random) = figures_of(accesses);
    let cost = cost_of(sorted, random, costs);
    add_line(
        text,
        format!(in alloc; "stop depth {depth} sorted {sorted} random {random} cost {cost}\n"),
    )
}

/// Adds the stop line and the accesses, to the end of a certificate.
fn add_accesses(alloc: Global, accesses: &[Access], costs: Costs, text: &mut String) -> bool {
    if !add_stop(alloc, accesses, costs, text) {
        return false;
    }
    for access in accesses {
        if !add_access(alloc, access, text) {
            return false;
        }
    }
    text.push_str("end\n").is_ok()
}

/// Adds the answer of the plain program.
fn add_plain_answer(
    alloc: Global,
    lists: &[MemList],
    query: &Query,
    costs: Costs,
    asked: (&str, u32),
    text: &mut String,
) -> bool
    requires posed { IsPosed lists.now query.now.expr }
    requires costs { 1 ≤ costs.sorted }
{
    let Some(items) = plain_items(alloc, lists, query, costs) else {
        return false;
    };
    let is_added = add_answer(alloc, asked.0, asked.1, &items, text);
    drop(items);
    is_added
}

/// Adds what the plain program reads.
fn add_plain_accesses(
    alloc: Global,
    lists: &[MemList],
    query: &Query,
    costs: Costs,
    text: &mut String,
) -> bool
    requires posed { IsPosed lists.now query.now.expr }
    requires costs { 1 ≤ costs.sorted }
{
    let Some(accesses) = plain_accesses(alloc, lists, query, costs) else {
        return false;
    };
    let is_added = add_accesses(alloc, &accesses, costs, text);
    drop(accesses);
    is_added
}

/// The costs in force of a query that may be asked over these lists. None where they are no table or not the query's, a sorted access
/// costs nothing, or there is no memory.
fn costs_over(alloc: Global, lists: &[MemList], query: &Query) -> Option<Costs>
    ensures posed { OnSome result (IsPosed lists.now query.now.expr) }
    ensures costs { IfSome result (λ costs. 1 ≤ costs.sorted) }
{
    if !is_table(alloc, lists).ok()? {
        return None;
    }
    if lists.len() != query.expr.lists() as usize || lists.len() > 8 {
        return None;
    }
    let costs = query.costs_in_force();
    if costs.sorted < 1 {
        return None;
    }
    Some(costs)
}

/// Adds the certificate of a query, whose text is asked over so many objects.
fn add_certificate(
    alloc: Global,
    lists: &[MemList],
    query: &Query,
    asked: (&str, u32),
    text: &mut String,
) -> bool {
    let Some(costs) = costs_over(alloc, lists, query) else {
        return false;
    };
    add_plain_answer(alloc, lists, query, costs, asked, text)
        && add_plain_accesses(alloc, lists, query, costs, text)
}

/// Adds the certificate of a query's text.
fn add_asked(alloc: Global, lists: &[MemList], asked: (&str, u32), text: &mut String) -> bool {
    let Ok(query) = read(alloc, asked.0.as_bytes()) else {
        return false;
    };
    let is_added = add_certificate(alloc, lists, &query, asked, text);
    query.let_go();
    is_added
}

/// Adds the certificate of a query's text over the lists of a bundle.
fn add_over(alloc: Global, input: &str, asked: (&str, u32), text: &mut String) -> bool {
    let Ok(bundle) = read_bundle(alloc, input.as_bytes()) else {
        return false;
    };
    add_asked(alloc, &bundle.lists, asked, text)
}

/// The certificate of a query over the lists of a bundle, by the plain program. The query is told by its text, over so many
/// objects. None where the text is no such bundle and query, or there is no memory.
pub fn expected(alloc: Global, input: &str, asked: (&str, u32)) -> Option<String> {
    let mut text = String::new(alloc);
    if add_over(alloc, input, asked, &mut text) {
        Some(text)
    } else {
        drop(text);
        None
    }
}
