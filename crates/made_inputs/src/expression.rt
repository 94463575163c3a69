//! The expressions of made queries.

ghost use Rattle.std.specs.Prelude.{◌≡◌, ◌≤◌, ◌<◌, map, IfOk};
ghost use Rattle.monotone_fn.specs.Shown.{tree_of, term_of};
ghost use Rattle.made_inputs.specs.MadeQueries.{list_trees, list_terms, made_tree};

use super::Memory;
use monotone_fn::{Expr, Node, Nodes, Term, Terms};
use std::alloc::Global;
use topk_base::MAX_LISTS;

/// The grades in each of so many lists.
fn list_nodes(alloc: Global, lists: u8) -> Result<Vec<Node>, Memory>
    ensures { IfOk result (λ nodes. map tree_of nodes.items ≡ list_trees lists) }
{
    let Ok(mut nodes) = Vec::with_capacity(alloc, usize::from(lists)) else {
        return Err(Memory);
    };
    for list in 0..lists {
        nodes.push_reserved(Node::List(list));
    }
    Ok(nodes)
}

/// The grades in each of so many lists, the first with the weight 1, the second with 2 and so on.
fn list_weights(alloc: Global, lists: u8) -> Result<Vec<Term>, Memory>
    ensures { IfOk result (λ weights. map term_of weights.items ≡ list_terms lists) }
{
    let Ok(mut weights) = Vec::with_capacity(alloc, usize::from(lists)) else {
        return Err(Memory);
    };
    for list in 0..lists {
        weights.push_reserved(Term {
            weight: u64::from(list) + 1,
            node: Node::List(list),
        });
    }
    Ok(weights)
}

/// One or more expressions that are the grades in so many lists.
fn all_lists(alloc: Global, lists: u8) -> Result<Nodes, Memory>
    requires { 1 ≤ lists }
    ensures { IfOk result (λ nodes. nodes ≡ list_trees lists) }
{
    Ok(Nodes::from_vec(list_nodes(alloc, lists)?))
}

/// The weighted grades in so many lists.
fn all_weights(alloc: Global, lists: u8) -> Result<Terms, Memory>
    requires { 1 ≤ lists }
    ensures { IfOk result (λ weights. weights ≡ list_terms lists) }
{
    Ok(Terms::from_vec(list_weights(alloc, lists)?))
}

/// The tree of the query with this number.
fn made_root(alloc: Global, number: u32, lists: u8) -> Result<Node, Memory>
    requires { 1 ≤ lists }
    ensures { IfOk result (λ root. tree_of root ≡ made_tree number lists) }
{
    if number % 5 == 4 {
        return Ok(Node::Wsum(all_weights(alloc, lists)?));
    }
    let grades = all_lists(alloc, lists)?;
    match number % 5 {
        0 => Ok(Node::Min(grades)),
        1 => Ok(Node::Max(grades)),
        2 => Ok(Node::Sum(grades)),
        _ => Ok(Node::Median(grades)),
    }
}

/// The expression of the query with this number.
pub(crate) fn made_expr(alloc: Global, number: u32, lists: u8) -> Result<Expr, Memory>
    requires some { 1 ≤ lists }
    requires few { lists ≤ MAX_LISTS }
    ensures { IfOk result (λ expr. expr ≡ made_tree number lists) }
{
    let root = made_root(alloc, number, lists)?;
    match Expr::make(alloc, root) {
        Ok(expr) => Ok(expr),
        Err(_) => unreachable!(),
    }
}
