//! Copies of expressions.

ghost use Rattle.std.specs.Prelude.{◌≡◌, IfOk};
ghost use Rattle.monotone_fn.specs.Shown.{tree_of};

use super::Memory;
use super::node::{Node, Nodes, Term, Terms};
use std::alloc::Global;

/// A node of the same tree.
#[cycle(copy)]
pub(crate) fn copy_node(alloc: Global, node: &Node) -> Result<Node, Memory>
    ensures { IfOk result (λ n. tree_of n ≡ tree_of node.now) }
{
    match node {
        Node::List(list) => Ok(Node::List(*list)),
        Node::Min(nodes) => Ok(Node::Min(copy_nodes(alloc, nodes)?)),
        Node::Max(nodes) => Ok(Node::Max(copy_nodes(alloc, nodes)?)),
        Node::Sum(nodes) => Ok(Node::Sum(copy_nodes(alloc, nodes)?)),
        Node::Median(nodes) => Ok(Node::Median(copy_nodes(alloc, nodes)?)),
        Node::Wsum(terms) => Ok(Node::Wsum(copy_terms(alloc, terms)?)),
    }
}

#[cycle(copy)]
fn copy_nodes(alloc: Global, nodes: &Nodes) -> Result<Nodes, Memory>
    ensures { IfOk result (λ ns. ns ≡ nodes.now) }
{
    let mut items = Vec::with_capacity(alloc, nodes.items.len())?;
    for node in &nodes.items {
        let copy = copy_node(alloc, node)?;
        items.push(copy)?;
    }
    Ok(Nodes { items })
}

#[cycle(copy)]
fn copy_terms(alloc: Global, weighted: &Terms) -> Result<Terms, Memory>
    ensures { IfOk result (λ us. us ≡ weighted.now) }
{
    let mut items = Vec::with_capacity(alloc, weighted.items.len())?;
    for term in &weighted.items {
        let node = copy_node(alloc, &term.node)?;
        items.push(Term {
            weight: term.weight,
            node,
        })?;
    }
    Ok(Terms { items })
}
