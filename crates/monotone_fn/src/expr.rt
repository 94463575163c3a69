//! Expressions within the limits.

ghost use Rattle.std.specs.Prelude.{◌≡◌, None, Err, IfSome};
ghost use Rattle.monotone_fn.specs.Shape.{NumbersLists};
ghost use Rattle.monotone_fn.specs.Limits.{IsExpr, Makes};
ghost use Rattle.monotone_fn.specs.Shown.{tree_of};

use super::Memory;
use super::copies::copy_node;
use super::fault::ExprFault;
use super::grades::{bottoms_filled, value_of, zeros_filled};
use super::node::Node;
use super::shape::{Extent, extent_of};
use super::value::value_at;
use std::alloc::Global;
use std::marker::Model;
use topk_base::{MAX_DEPTH, MAX_LISTS, MAX_NODES, MAX_VALUE, TOP_GRADE};

/// An expression within the limits, which contracts see as its tree. Each of its values fits in 63 bits.
#[derive(Drop)]
pub struct Expr {
    root: Node,
    lists: u8,
}

impl Model for Expr {
    ghost use Rattle.std.specs.Prelude.{◌≡◌};
    ghost use Rattle.monotone_fn.specs.Tree.{Tree};
    ghost use Rattle.monotone_fn.specs.Code.{tree_code};

    ghost Value = { Tree };

    ghost coded = { tree_code };

    ghost use Rattle.monotone_fn.specs.Shape.{list_count};
    ghost use Rattle.monotone_fn.specs.Limits.{IsExpr};
    ghost use Rattle.monotone_fn.specs.Shown.{tree_of};

    ghost view = { λ a. tree_of a.root };

    ghost invariant = { λ a. IsExpr (tree_of a.root) × (a.lists ≡ list_count (tree_of a.root)) };
}

/// Why a tree is refused, if it is.
fn fault_of(root: &Node) -> Option<ExprFault>
    requires { NumbersLists (tree_of root.now) }
    ensures faults { IfSome result (λ fault. Makes (tree_of root.now) (Err fault)) }
    ensures within { result ≡ None → IsExpr (tree_of root.now) }
{
    let Extent { nodes, depth, .. } = extent_of(root);
    if nodes > MAX_NODES as u64 {
        return Some(ExprFault::TooManyNodes { nodes });
    }
    if depth > MAX_DEPTH as u64 {
        return Some(ExprFault::TooDeep { depth });
    }
    let mut ended = 0;
    if value_at(root, &[TOP_GRADE; MAX_LISTS], &mut ended).is_none() {
        return Some(ExprFault::TooBig { node: ended });
    }
    None
}

impl Expr {
    ghost use Rattle.std.specs.Prelude.{◌≡◌, ℕ, ◌≤◌, List, length, IfOk};
    ghost use Rattle.monotone_fn.specs.Shape.{list_count, NumbersLists};
    ghost use Rattle.monotone_fn.specs.Value.{value, low, high, IsMonotone, IsWithin};
    ghost use Rattle.monotone_fn.specs.Limits.{AreGrades, AreGradesWhereKnown, top_value, IsExpr, Makes};
    ghost use Rattle.monotone_fn.specs.Shown.{tree_of};

    /// The expression of a tree, or why it is refused: too many nodes, then too much depth, then a value too big.
    /// It takes no memory yet, so [`ExprFault::Memory`] does not come.
    pub fn make(_alloc: Global, root: Node) -> Result<Expr, ExprFault>
        requires { NumbersLists (tree_of root) }
        ensures { Makes (tree_of root) result }
    {
        match fault_of(&root) {
            Some(fault) => {
                drop(root);
                Err(fault)
            }
            None => {
                let lists = extent_of(&root).lists as u8;
                Ok(Expr { root, lists })
            }
        }
    }

    /// An equal expression.
    ///
    /// # Errors
    ///
    /// [`Memory`] where no memory is left.
    pub fn copy(&self, alloc: Global) -> Result<Expr, Memory>
        ensures { IfOk result (λ e. e ≡ self.now) }
    {
        let root = copy_node(alloc, &self.root)?;
        Ok(Expr {
            root,
            lists: self.lists,
        })
    }

    /// The tree that the expression was made of.
    pub fn root(&self) -> &Node
        ensures tree { tree_of result.now ≡ self.now }
        ensures made { IsExpr self.now }
    {
        &self.root
    }

    /// How many lists it names. They are numbered from 0.
    pub fn lists(&self) -> u8
        ensures lists { result ≡ list_count self.now }
        ensures made { IsExpr self.now }
    {
        self.lists
    }

    /// The value at an object's grades, one for each list. It is at most the value where each grade is the greatest,
    /// which is below 2^63, and grades no smaller give a value no smaller.
    ///
    /// *Cost*: the nodes of the expression, at most 64; a median sorts its values.
    pub fn eval(&self, grades: &[u32]) -> u64
        requires lists { length grades.now ≡ list_count self.now }
        requires capped { AreGrades grades.now }
        ensures value { result ≡ value self.now grades.now }
        ensures bounded { result ≤ top_value self.now }
        ensures small { top_value self.now ≤ MAX_VALUE }
        ensures monotone { IsMonotone (value self.now) }
    {
        value_of(&self.root, grades)
    }

    /// The least value that an object with these known grades may have, W of Fagin, Lotem and Naor: the value with 0
    /// in place of each unknown grade.
    pub fn eval_low(&self, known: &[Option<u32>]) -> u64
        requires lists { length known.now ≡ list_count self.now }
        requires capped { AreGradesWhereKnown known.now }
        ensures value { result ≡ low self.now known.now }
        ensures small { result ≤ MAX_VALUE }
        ensures below { (bottoms grades : List ℕ) → IsWithin known.now bottoms grades
            → result ≤ value self.now grades }
    {
        let root = &self.root;
        let grades = zeros_filled(known);
        value_of(root, &grades[..known.len()])
    }

    /// The greatest value that an object with these known grades may have under these bottoms, one for each list, B of
    /// Fagin, Lotem and Naor: the value with the list's bottom in place of each unknown grade.
    pub fn eval_high(&self, known: &[Option<u32>], bottoms: &[u32]) -> u64
        requires lists { length known.now ≡ list_count self.now }
        requires bottoms { length bottoms.now ≡ list_count self.now }
        requires capped { AreGradesWhereKnown known.now }
        requires bottoms_capped { AreGrades bottoms.now }
        ensures value { result ≡ high self.now known.now bottoms.now }
        ensures small { result ≤ MAX_VALUE }
        ensures above { (grades : List ℕ) → IsWithin known.now bottoms.now grades
            → value self.now grades ≤ result }
    {
        let root = &self.root;
        let grades = bottoms_filled(known, bottoms);
        value_of(root, &grades[..known.len()])
    }

    /// Lets an expression go. Who owns one lets it go by this call, so that it is proved once.
    pub fn let_go(self) {}
}
