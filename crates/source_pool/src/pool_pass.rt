//! A pass of a pool.

ghost use Rattle.std.specs.Prelude.{◌≡◌};

use super::hold::Hold;
use std::marker::Model;

/// A right to look at the sources of a pool. To a contract it is what it holds of each source, by the sources' numbers.
pub struct PoolPass {
    pub(crate) holds: Vec<Hold>,
}

/// Written here, and not derived, so that a crate that lets a pass go calls this.
impl Drop for PoolPass {
    fn drop(self) {
        let PoolPass { holds: _holds } = self;
    }
}

impl Model for PoolPass {
    ghost use Rattle.std.specs.Prelude.{List};
    ghost use Rattle.source_pool.specs.declared.hold.Hold.{Hold};

    ghost Value = { List Hold };

    ghost view = { λ a. a.holds.items };
}

impl PoolPass {
    /// What it holds of each source.
    pub(crate) fn into_holds(self) -> Vec<Hold>
        ensures { result.items ≡ self }
    {
        let PoolPass { holds } = self;
        holds
    }
}
