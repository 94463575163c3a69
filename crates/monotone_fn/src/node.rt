//! Expressions as trees.

use std::marker::Model;
use std::slice::Iter;

/// An expression: the grade in a list, or an operator over the values of expressions.
#[cycle(node)]
#[derive(Drop)]
pub enum Node {
    /// The grade in the list of this number. Lists are numbered from 0.
    List(u8),
    /// The least value.
    Min(Nodes),
    /// The greatest value.
    Max(Nodes),
    /// The sum of the values.
    Sum(Nodes),
    /// The lower median: of n values in order, the one at place (n + 1) / 2, rounded down, from 1.
    Median(Nodes),
    /// The sum of weight times value.
    Wsum(Terms),
}

/// One expression or more in order, which contracts see as the list of their trees.
#[cycle(node)]
#[derive(Drop)]
pub struct Nodes {
    pub(crate) items: Vec<Node>,
}

impl Model for Nodes {
    ghost use Rattle.std.specs.Prelude.{List, map, ◌<◌, ◌^◌, vec_len};
    ghost use Rattle.std.specs.Coded.{coded_list};
    ghost use Rattle.monotone_fn.specs.Tree.{Tree};
    ghost use Rattle.monotone_fn.specs.Code.{tree_code};

    ghost Value = { List Tree };

    ghost coded = { coded_list tree_code };

    ghost use Rattle.monotone_fn.specs.Shown.{tree_of};
    ghost use Rattle.monotone_fn.specs.Falls.{deepest};

    ghost view = { λ a. map tree_of a.items.items };

    ghost invariant = { λ a. (0 < vec_len a.items) × (vec_len a.items < 2 ^ 32) };

    ghost size = { deepest };

    ghost use Rattle.monotone_fn.specs.NodesFall.{most-deepest};

    ghost size_decreases = { λ a h. most-deepest a.items.items };
}

/// A weight and an expression.
#[cycle(node)]
#[derive(Drop)]
pub struct Term {
    pub weight: u64,
    pub node: Node,
}

/// One term or more in order, which contracts see as the list of their weights and trees.
#[cycle(node)]
#[derive(Drop)]
pub struct Terms {
    pub(crate) items: Vec<Term>,
}

impl Model for Terms {
    ghost use Rattle.std.specs.Prelude.{List, ℕ, map, ◌<◌, ◌^◌, vec_len};
    ghost use Rattle.std.specs.Coded.{coded_list, coded×, coded_ℕ};
    ghost use Rattle.monotone_fn.specs.Tree.{Tree};
    ghost use Rattle.monotone_fn.specs.Code.{tree_code};

    ghost Value = { List (ℕ × Tree) };

    ghost coded = { coded_list (coded× coded_ℕ tree_code) };

    ghost use Rattle.monotone_fn.specs.Shown.{term_of};
    ghost use Rattle.monotone_fn.specs.Falls.{deepest_term};

    ghost view = { λ a. map term_of a.items.items };

    ghost invariant = { λ a. (0 < vec_len a.items) × (vec_len a.items < 2 ^ 32) };

    ghost size = { deepest_term };

    ghost use Rattle.monotone_fn.specs.NodesFall.{most-deepest_term};

    ghost size_decreases = { λ a h. most-deepest_term a.items.items };
}

impl Nodes {
    ghost use Rattle.std.specs.Prelude.{◌≡◌, ◌<◌, ◌^◌, length, map, slice_get, vec_len};
    ghost use Rattle.std.specs.Option.{option_map};
    ghost use Rattle.std.specs.Slice.Iter.{iter_rest};
    ghost use Rattle.std.specs.Iterator.Adapters.{IterYieldsInOrder};
    ghost use Rattle.monotone_fn.specs.declared.node.Node.{Node};
    ghost use Rattle.monotone_fn.specs.Shown.{tree_of};

    /// The expressions of a vector, in its order. Takes no memory.
    pub fn from_vec(items: Vec<Node>) -> Nodes
        requires some { 0 < vec_len items }
        requires few { vec_len items < 2 ^ 32 }
        ensures { result ≡ map tree_of items.items }
    {
        Nodes { items }
    }

    /// The vector of the expressions. Takes no memory.
    pub fn into_vec(self) -> Vec<Node>
        ensures trees { map tree_of result.items ≡ self }
        ensures some { 0 < vec_len result }
    {
        let Nodes { items } = self;
        items
    }

    /// How many there are: one at least.
    pub fn len(&self) -> u32
        ensures count { result ≡ length self.now }
        ensures some { 0 < result }
    {
        self.items.len() as u32
    }

    /// The expression at a place from 0, or None past the end.
    pub fn get(&self, place: u32) -> Option<&Node>
        ensures { option_map (λ n. tree_of n.now) result ≡ slice_get self.now place }
    {
        self.items.get(place as usize)
    }

    /// The expressions, in their order.
    pub fn iter(&self) -> Iter<'_, Node>
        ensures rest { map tree_of (iter_rest result) ≡ self.now }
        ensures few { length (iter_rest result) < 2 ^ 32 }
        ensures runs { IterYieldsInOrder Node }
    {
        self.items.iter()
    }
}

impl Terms {
    ghost use Rattle.std.specs.Prelude.{◌≡◌, ◌<◌, ◌^◌, length, map, slice_get, vec_len};
    ghost use Rattle.std.specs.Option.{option_map};
    ghost use Rattle.std.specs.Slice.Iter.{iter_rest};
    ghost use Rattle.std.specs.Iterator.Adapters.{IterYieldsInOrder};
    ghost use Rattle.monotone_fn.specs.declared.node.Term.{Term};
    ghost use Rattle.monotone_fn.specs.Shown.{term_of};

    /// The terms of a vector, in its order. Takes no memory.
    pub fn from_vec(items: Vec<Term>) -> Terms
        requires some { 0 < vec_len items }
        requires few { vec_len items < 2 ^ 32 }
        ensures { result ≡ map term_of items.items }
    {
        Terms { items }
    }

    /// The vector of the terms. Takes no memory.
    pub fn into_vec(self) -> Vec<Term>
        ensures terms { map term_of result.items ≡ self }
        ensures some { 0 < vec_len result }
    {
        let Terms { items } = self;
        items
    }

    /// How many there are: one at least.
    pub fn len(&self) -> u32
        ensures count { result ≡ length self.now }
        ensures some { 0 < result }
    {
        self.items.len() as u32
    }

    /// The term at a place from 0, or None past the end.
    pub fn get(&self, place: u32) -> Option<&Term>
        ensures { option_map (λ t. term_of t.now) result ≡ slice_get self.now place }
    {
        self.items.get(place as usize)
    }

    /// The terms, in their order.
    pub fn iter(&self) -> Iter<'_, Term>
        ensures rest { map term_of (iter_rest result) ≡ self.now }
        ensures few { length (iter_rest result) < 2 ^ 32 }
        ensures runs { IterYieldsInOrder Term }
    {
        self.items.iter()
    }
}
