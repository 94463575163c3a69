//! The value of an expression, and the first of its nodes whose value is too great.

ghost use Rattle.std.specs.Prelude.{◌≡◌, ◌+◌, ◌-◌, ◌^◌, ◌<◌, ◌≤◌, min, length, sum, IfSome};
ghost use Rattle.monotone_fn.specs.Tree.{trees, terms};
ghost use Rattle.monotone_fn.specs.Shape.{nodes_of, nodes_below, nodes_in, nodes_under, list_count, list_count_in, list_count_under};
ghost use Rattle.monotone_fn.specs.Value.{value, values, products};
ghost use Rattle.monotone_fn.specs.Limits.{Passes};
ghost use Rattle.monotone_fn.specs.Summary.{Summarizes};
ghost use Rattle.monotone_fn.specs.Shown.{tree_of};

use super::node::{Node, Nodes, Terms};
use super::summary::Summary;
use super::values::Values;
use topk_base::{MAX_NODES, MAX_VALUE};

/// The value of a node. `ended` rises by one where a node's text ends. None where a node's value passes
/// [`MAX_VALUE`]: `ended` is then at the first such.
#[cycle(value)]
pub(crate) fn value_at(node: &Node, grades: &[u32], ended: &mut u32) -> Option<u64>
    requires lists { list_count (tree_of node.now) ≤ length grades.now }
    requires few { length (nodes_of (tree_of node.now)) ≤ MAX_NODES }
    requires room { ended.old + length (nodes_of (tree_of node.now)) < 2 ^ 32 }
    ensures value { IfSome result (λ v. v ≡ value (tree_of node.now) grades.now) }
    ensures small { IfSome result (λ v. v ≤ MAX_VALUE) }
    ensures passes { Passes grades.now (nodes_of (tree_of node.now)) ended.old ended.new result }
{
    let value = value_of_parts(node, grades, ended)?;
    *ended += 1;
    (value <= MAX_VALUE).then_some(value)
}

/// The value of a node, or the last `u64` where it passes that. None where the value of a node below it passes
/// [`MAX_VALUE`].
#[cycle(value)]
fn value_of_parts(node: &Node, grades: &[u32], ended: &mut u32) -> Option<u64>
    requires lists { list_count (tree_of node.now) ≤ length grades.now }
    requires few { length (nodes_below (tree_of node.now)) < MAX_NODES }
    requires room { ended.old + length (nodes_below (tree_of node.now)) < 2 ^ 32 }
    ensures value { IfSome result (λ v. v ≡ min (value (tree_of node.now) grades.now) (2 ^ 64 - 1)) }
    ensures passes { Passes grades.now (nodes_below (tree_of node.now)) ended.old ended.new result }
{
    match node {
        Node::List(list) => Some(u64::from(grades[usize::from(*list)])),
        Node::Min(nodes) => Some(summary_at(nodes, grades, ended)?.least.unwrap_or(0)),
        Node::Max(nodes) => Some(summary_at(nodes, grades, ended)?.greatest.unwrap_or(0)),
        Node::Sum(nodes) => Some(summary_at(nodes, grades, ended)?.total),
        Node::Median(nodes) => Some(values_at(nodes, grades, ended)?.median()),
        Node::Wsum(terms) => weighted_at(terms, grades, ended),
    }
}

/// The values of nodes in order.
#[cycle(value)]
fn values_at(nodes: &Nodes, grades: &[u32], ended: &mut u32) -> Option<Values>
    requires lists { list_count_in (trees nodes.now) ≤ length grades.now }
    requires few { length (nodes_in (trees nodes.now)) < MAX_NODES }
    requires room { ended.old + length (nodes_in (trees nodes.now)) < 2 ^ 32 }
    ensures values { IfSome result (λ vs. vs ≡ values (trees nodes.now) grades.now) }
    ensures passes { Passes grades.now (nodes_in (trees nodes.now)) ended.old ended.new result }
{
    let mut values = Values::new();
    for node in &nodes.items {
        values.push(value_at(node, grades, ended)?);
    }
    Some(values)
}

/// What the values of nodes come to.
#[cycle(value)]
fn summary_at(nodes: &Nodes, grades: &[u32], ended: &mut u32) -> Option<Summary>
    requires lists { list_count_in (trees nodes.now) ≤ length grades.now }
    requires few { length (nodes_in (trees nodes.now)) < MAX_NODES }
    requires room { ended.old + length (nodes_in (trees nodes.now)) < 2 ^ 32 }
    ensures summary { IfSome result (Summarizes (values (trees nodes.now) grades.now)) }
    ensures passes { Passes grades.now (nodes_in (trees nodes.now)) ended.old ended.new result }
{
    let mut summary = Summary::start();
    for node in &nodes.items {
        summary = summary.with(value_at(node, grades, ended)?);
    }
    Some(summary)
}

/// The sum of weight times value, or the last `u64` where it passes that.
#[cycle(value)]
fn weighted_at(weighted: &Terms, grades: &[u32], ended: &mut u32) -> Option<u64>
    requires lists { list_count_under (terms weighted.now) ≤ length grades.now }
    requires few { length (nodes_under (terms weighted.now)) < MAX_NODES }
    requires room { ended.old + length (nodes_under (terms weighted.now)) < 2 ^ 32 }
    ensures total { IfSome result (λ v. v ≡ min (sum (products (terms weighted.now) grades.now)) (2 ^ 64 - 1)) }
    ensures passes { Passes grades.now (nodes_under (terms weighted.now)) ended.old ended.new result }
{
    let mut total = 0u64;
    for term in &weighted.items {
        let value = value_at(&term.node, grades, ended)?;
        total = total.saturating_add(term.weight.saturating_mul(value));
    }
    Some(total)
}
