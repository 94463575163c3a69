//! Made queries.

ghost use Rattle.std.specs.Prelude.{◌≡◌, ◌≤◌, IfOk};
ghost use Rattle.query_text.specs.Query.{IsLawful};
ghost use Rattle.bundle_text.specs.Numbered.{list_name, list_names};
ghost use Rattle.made_inputs.specs.MadeQueries.{made_algorithm, made_query};

use super::Memory;
use super::expression::made_expr;
use query_text::{Algorithm, Costs, Names, Query};
use std::alloc::Global;
use topk_base::MAX_LISTS;

/// The name of a list by its number, from 1.
fn name_of(alloc: Global, number: u8) -> Result<Vec<u8>, Memory>
    ensures { IfOk result (λ name. name.items ≡ list_name number) }
{
    match format!(in alloc; "l{number}") {
        Ok(name) => Ok(name.into_bytes()),
        Err(_) => Err(Memory),
    }
}

/// The names of so many lists.
fn made_names(alloc: Global, lists: u8) -> Result<Names, Memory>
    requires { lists ≤ MAX_LISTS }
    ensures { IfOk result (λ names. names ≡ list_names lists) }
{
    let Ok(mut names) = Vec::with_capacity(alloc, usize::from(lists)) else {
        return Err(Memory);
    };
    for list in 0..lists {
        let name = name_of(alloc, list + 1)?;
        names.push_reserved(name);
    }
    Ok(Names::from_vec(names))
}

/// The algorithm of the query with this number: in turn the threshold algorithm, the one without random
/// access, and the combined one.
fn made_algorithm(number: u32) -> Algorithm
    ensures { result ≡ made_algorithm number }
{
    match number % 3 {
        0 => Algorithm::Ta,
        1 => Algorithm::Nra,
        _ => Algorithm::Ca,
    }
}

/// Makes the query of this number, from 0, over the lists of a made table: `top K by E using A cost 1 C`.
///
/// K goes in turn from 1 to 10, or to `count` where that is less. E is over all lists in their order: in
/// turn `min`, `max`, `sum`, `median`, and `wsum` with the weights 1, 2 and so on. A is in turn `ta`,
/// `nra` and `ca`, and C goes from 1 to 4.
pub fn made_query(alloc: Global, number: u32, count: u32, lists: u8) -> Result<Query, Memory>
    requires objects { 1 ≤ count }
    requires some { 1 ≤ lists }
    requires few { lists ≤ MAX_LISTS }
    ensures made { IfOk result (λ query. query ≡ made_query number count lists) }
    ensures lawful { IfOk result IsLawful }
{
    let names = made_names(alloc, lists)?;
    let Ok(expr) = made_expr(alloc, number, lists) else {
        return Err(Memory);
    };
    Ok(Query {
        k: 1 + number % count.min(10),
        names,
        expr,
        algorithm: made_algorithm(number),
        cost: Some(Costs {
            sorted: 1,
            random: 1 + number % 4,
        }),
        room: None,
    })
}
