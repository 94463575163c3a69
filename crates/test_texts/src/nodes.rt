//! The nodes of an expression, one by one.

use super::holds;
use monotone_fn::{Node, Nodes, Term, Terms};
use std::alloc::Global;

/// Whether two nodes are kept and come back.
fn keeps_two_nodes(alloc: Global) -> bool {
    let Ok(mut items) = Vec::with_capacity(alloc, 2) else {
        return false;
    };
    items.push_reserved(Node::List(4));
    items.push_reserved(Node::List(5));
    let nodes = Nodes::from_vec(items);
    let are_kept = match nodes.get(1) {
        Some(Node::List(list)) => nodes.len() == 2 && *list == 5,
        _ => false,
    };
    let returned = nodes.into_vec().len();
    are_kept && returned == 2
}

/// Whether one term is kept and comes back.
fn keeps_one_term(alloc: Global) -> bool {
    let Ok(mut items) = Vec::with_capacity(alloc, 1) else {
        return false;
    };
    items.push_reserved(Term {
        weight: 9,
        node: Node::List(0),
    });
    let terms = Terms::from_vec(items);
    let is_kept = match terms.get(0) {
        Some(term) => terms.len() == 1 && term.weight == 9,
        None => false,
    };
    let returned = terms.into_vec().len();
    is_kept && returned == 1
}

#[test]
fn nodes_and_terms(rt: HostRuntime) {
    let keeps_nodes = keeps_two_nodes(rt.alloc());
    let keeps_terms = keeps_one_term(rt.alloc());
    holds(&rt, keeps_nodes && keeps_terms);
}
