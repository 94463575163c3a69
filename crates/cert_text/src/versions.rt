//! The versions of a query's lists.

use std::marker::Model;

/// One version for each list of a query, in its order, which contracts see as their list. A list that was never replaced
/// may state version 0.
#[derive(Drop)]
pub struct Versions {
    items: Vec<u64>,
}

impl Model for Versions {
    ghost use Rattle.std.specs.Prelude.{List, ℕ};

    ghost Value = { List ℕ };

    ghost view = { λ v. v.items.items };
}

impl Versions {
    ghost use Rattle.std.specs.Prelude.{◌≡◌};

    /// The versions of a vector, in its order. Takes no memory.
    pub fn from_vec(items: Vec<u64>) -> Versions
        ensures { result ≡ items.items }
    {
        Versions { items }
    }

    /// The vector of the versions. Takes no memory.
    pub fn into_vec(self) -> Vec<u64>
        ensures { result.items ≡ self }
    {
        let Versions { items } = self;
        items
    }

    /// The versions, in their order.
    pub fn as_slice(&self) -> &[u64]
        ensures { result.now ≡ self.now }
    {
        self.items.as_slice()
    }
}
