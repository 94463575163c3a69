//! Queries.

ghost use Rattle.std.specs.Prelude.{◌≡◌};
ghost use Rattle.query_text.specs.Costs.{costs_in_force};

use super::algorithm::Algorithm;
use super::names::Names;
use monotone_fn::{Costs, Expr};

/// A query: the k objects with the greatest values of an expression over lists.
#[derive(Drop)]
pub struct Query {
    /// How many objects are asked for, 1 to 1,000,000.
    pub k: u32,
    /// The names of the lists, by the lists' numbers in the expression.
    pub names: Names,
    /// The value of an object, over its grades in the lists.
    pub expr: Expr,
    /// How the answer is found.
    pub algorithm: Algorithm,
    /// What one access costs, each 1 to 1,000,000. None means 1 and 1.
    pub cost: Option<Costs>,
    /// How many objects may be kept, 1 to 1,000,000. None means any number.
    pub room: Option<u32>,
}

impl Query {
    /// What one access of each kind costs the query: 1 and 1 where it doesn't say.
    pub fn costs_in_force(&self) -> Costs
        ensures { result ≡ costs_in_force self.now }
    {
        self.cost.unwrap_or(Costs {
            sorted: 1,
            random: 1,
        })
    }

    /// Lets a query go. Who owns one lets it go by this call, so that it is proved once.
    pub fn let_go(self) {
        let Query { names, expr, .. } = self;
        drop(names);
        expr.let_go();
    }
}
