//! Operators whose arguments are being read.

ghost use Rattle.std.specs.Prelude.{◌≡◌, ◌<◌, ◌^◌, ℕ, [], ◌∷◌, ◌++◌, List, OnOk, IfOk, IfErr, false, vec_len};
ghost use Rattle.monotone_fn.specs.Shown.{tree_of};
ghost use Rattle.monotone_fn.specs.Tree.{trees};
ghost use Rattle.query_text.specs.Written.{Written};
ghost use Rattle.query_text.specs.Query.{written, arguments, IsPlain, ArePlain, HasTree};
ghost use Rattle.query_text.specs.Front.{opened, is_weighted};
ghost use Rattle.query_text.specs.Draft.{frame_of, AddsArgument, Closes, IsFramePlain};

use super::course::is_weighted;
use super::fault::QueryFault;
use super::operator::Operator;
use monotone_fn::{Node, Nodes, Term, Terms};
use std::alloc::Global;

/// An operator that is open, with its arguments so far.
#[derive(Drop)]
pub(crate) struct Frame {
    pub(crate) operator: Operator,
    /// The weight that stands before the next argument, if one was read.
    pub(crate) weight: Option<u64>,
    /// The arguments of an operator without weights.
    pub(crate) nodes: Vec<Node>,
    /// The arguments of an operator with weights.
    pub(crate) terms: Vec<Term>,
}

impl Frame {
    /// An operator without arguments.
    pub(crate) fn new(alloc: Global, operator: Operator) -> Frame
        ensures shows { (names : List (List ℕ)) → frame_of names result ≡ opened operator }
        ensures plain { IsFramePlain result }
    {
        Frame {
            operator,
            weight: None,
            nodes: Vec::new(alloc),
            terms: Vec::new(alloc),
        }
    }

    /// Adds an argument, with the weight that was read before it.
    pub(crate) fn add(&mut self, node: Node) -> Result<(), QueryFault>
        ensures ok { OnOk result (AddsArgument self.old self.new (tree_of node)) }
        ensures err { IfErr result (λ fault. fault ≡ QueryFault.Memory) }
    {
        let weight = self.weight.take();
        if is_weighted(self.operator) {
            let weight = weight.unwrap_or(0);
            return push(&mut self.terms, Term { weight, node });
        }
        push(&mut self.nodes, node)
    }

    /// The expression of the operator over its arguments and one more, which comes last.
    pub(crate) fn close(self, node: Node) -> Result<Node, QueryFault>
        ensures ok { IfOk result (λ whole. Closes self (tree_of node) (tree_of whole)) }
        ensures err { IfErr result (λ fault. fault ≡ QueryFault.Memory) }
    {
        let Frame {
            operator,
            weight,
            nodes,
            terms,
        } = self;
        if is_weighted(operator) {
            drop(nodes);
            let weight = weight.unwrap_or(0);
            let terms = with_last(terms, Term { weight, node })?;
            return Ok(Node::Wsum(Terms::from_vec(terms)));
        }
        drop(terms);
        let nodes = with_last(nodes, node)?;
        Ok(over(operator, Nodes::from_vec(nodes)))
    }
}

/// How many arguments are kept at most. A line that fits has fewer.
const MAX_ARGUMENTS: usize = 0xffff_ffff;

/// Adds a value at the end. Where memory is refused, the value is dropped.
pub(crate) fn push<T: Drop>(values: &mut Vec<T>, value: T) -> Result<(), QueryFault>
    ensures ok { OnOk result (values.new.items ≡ values.old.items ++ value ∷ []) }
    ensures err { IfErr result (λ fault. fault ≡ QueryFault.Memory) }
{
    match values.push(value) {
        Ok(()) => Ok(()),
        Err(refused) => {
            drop(refused);
            Err(QueryFault::Memory)
        }
    }
}

/// The arguments and one more, which comes last.
fn with_last<T: Drop>(arguments: Vec<T>, last: T) -> Result<Vec<T>, QueryFault>
    ensures ok { IfOk result (λ all. all.items ≡ arguments.items ++ last ∷ []) }
    ensures some { IfOk result (λ all. 0 < vec_len all) }
    ensures few { IfOk result (λ all. vec_len all < 2 ^ 32) }
    ensures err { IfErr result (λ fault. fault ≡ QueryFault.Memory) }
{
    let mut all = arguments;
    push(&mut all, last)?;
    if all.len() > MAX_ARGUMENTS {
        return Err(QueryFault::Memory);
    }
    Ok(all)
}

/// An operator without weights over its arguments.
fn over(operator: Operator, nodes: Nodes) -> Node
    ensures shows { is_weighted operator ≡ false → (names : List (List ℕ)) →
        written names (tree_of result) ≡ Written.call operator (arguments names (trees nodes)) }
    ensures plain { HasTree (trees nodes) → ArePlain (trees nodes) → IsPlain (tree_of result) }
{
    match operator {
        Operator::Min => Node::Min(nodes),
        Operator::Max => Node::Max(nodes),
        Operator::Sum | Operator::Wsum => Node::Sum(nodes),
        Operator::Median => Node::Median(nodes),
    }
}
