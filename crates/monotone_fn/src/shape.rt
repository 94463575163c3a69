//! How many nodes an expression has, how deep it nests, and how many lists it names.

ghost use Rattle.std.specs.Prelude.{◌≡◌, ◌+◌, length, max};
ghost use Rattle.monotone_fn.specs.Tree.{trees, terms};
ghost use Rattle.monotone_fn.specs.Shape.{nodes_in, nodes_under, node_count, depth, depth_in, depth_under, list_count, list_count_in, list_count_under};
ghost use Rattle.monotone_fn.specs.Limits.{counted};
ghost use Rattle.monotone_fn.specs.Shown.{tree_of};

use super::node::{Node, Nodes, Terms};

/// How large an expression is, or some expressions together.
#[derive(Clone, Copy)]
pub(crate) struct Extent {
    /// How many nodes there are, or the last `u64` where that is passed.
    pub(crate) nodes: u64,
    /// How deep they nest, or the last `u64` where that is passed.
    pub(crate) depth: u64,
    /// One more than the greatest number of a list that is named, or 0.
    pub(crate) lists: u16,
}

impl Extent {
    /// That of these expressions and another one.
    fn with(self, other: Extent) -> Extent
        ensures nodes { result.nodes ≡ counted (self.nodes + other.nodes) }
        ensures depth { result.depth ≡ max self.depth other.depth }
        ensures lists { result.lists ≡ max self.lists other.lists }
    {
        Extent {
            nodes: self.nodes.saturating_add(other.nodes),
            depth: self.depth.max(other.depth),
            lists: self.lists.max(other.lists),
        }
    }

    /// That of a node over these expressions.
    fn below_one(self) -> Extent
        ensures nodes { result.nodes ≡ counted (self.nodes + 1) }
        ensures depth { result.depth ≡ counted (self.depth + 1) }
        ensures lists { result.lists ≡ self.lists }
    {
        Extent {
            nodes: self.nodes.saturating_add(1),
            depth: self.depth.saturating_add(1),
            lists: self.lists,
        }
    }
}

/// How large an expression is.
#[cycle(extent)]
pub(crate) fn extent_of(node: &Node) -> Extent
    ensures nodes { result.nodes ≡ counted (node_count (tree_of node.now)) }
    ensures depth { result.depth ≡ counted (depth (tree_of node.now)) }
    ensures lists { result.lists ≡ list_count (tree_of node.now) }
{
    match node {
        Node::List(list) => Extent {
            nodes: 1,
            depth: 1,
            lists: u16::from(*list) + 1,
        },
        Node::Min(nodes) => extent_of_nodes(nodes).below_one(),
        Node::Max(nodes) => extent_of_nodes(nodes).below_one(),
        Node::Sum(nodes) => extent_of_nodes(nodes).below_one(),
        Node::Median(nodes) => extent_of_nodes(nodes).below_one(),
        Node::Wsum(terms) => extent_of_terms(terms).below_one(),
    }
}

#[cycle(extent)]
fn extent_of_nodes(nodes: &Nodes) -> Extent
    ensures nodes { result.nodes ≡ counted (length (nodes_in (trees nodes.now))) }
    ensures depth { result.depth ≡ counted (depth_in (trees nodes.now)) }
    ensures lists { result.lists ≡ list_count_in (trees nodes.now) }
{
    let mut extent = Extent {
        nodes: 0,
        depth: 0,
        lists: 0,
    };
    for node in &nodes.items {
        extent = extent.with(extent_of(node));
    }
    extent
}

#[cycle(extent)]
fn extent_of_terms(weighted: &Terms) -> Extent
    ensures nodes { result.nodes ≡ counted (length (nodes_under (terms weighted.now))) }
    ensures depth { result.depth ≡ counted (depth_under (terms weighted.now)) }
    ensures lists { result.lists ≡ list_count_under (terms weighted.now) }
{
    let mut extent = Extent {
        nodes: 0,
        depth: 0,
        lists: 0,
    };
    for term in &weighted.items {
        extent = extent.with(extent_of(&term.node));
    }
    extent
}
