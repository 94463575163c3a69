//! A weight that no query's text has.

ghost use Rattle.std.specs.Prelude.{IfSome};
ghost use Rattle.monotone_fn.specs.Shape.{NumbersLists};
ghost use Rattle.monotone_fn.specs.Shown.{tree_of};

use super::holds;
use monotone_fn::{Expr, ExprFault, Node, Term, Terms};
use std::alloc::Global;

/// `wsum(WEIGHT*A)`.
fn weighted(alloc: Global, weight: u64) -> Option<Node>
    ensures { IfSome result (λ node. NumbersLists (tree_of node)) }
{
    let term = Term {
        weight,
        node: Node::List(0),
    };
    let mut items = Vec::new(alloc);
    let Ok(()) = items.push(term) else {
        return None;
    };
    Some(Node::Wsum(Terms::from_vec(items)))
}

/// Why the expression of this weight is refused.
fn fault_of(alloc: Global, weight: u64) -> Option<ExprFault> {
    let root = weighted(alloc, weight)?;
    Expr::make(alloc, root).err()
}

#[test]
fn greatest_of_64_bits(rt: HostRuntime) {
    holds(
        &rt,
        fault_of(rt.alloc(), u64::MAX) == Some(ExprFault::TooBig { node: 2 }),
    );
}
