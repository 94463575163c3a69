// The rule of a lock's table, and its steps. `specs/Rule.antt` and `specs/Steps.antt` say what they mean.
use crate::lock_invariant::LockInvariant;
use crate::view::View;
use atomic_table::{Join, Play, Split, TableRule};

pub struct Keyed;

impl<V: LockInvariant> TableRule<Option<V>, View<V::Key>, V::Key> for Keyed {
    ghost use Rattle.keyed_lock.specs.Rule.{Ruled, first_view};

    ghost holds = { λ key s. Ruled V.keeps key s };

    ghost first = { λ key. first_view key };
}

// The value is taken, where no pass has it.
pub struct Grab;

impl<V: LockInvariant> Play<Option<V>, View<V::Key>> for Grab {
    ghost use Rattle.keyed_lock.specs.Steps.{Grabs};

    ghost then = { λ st m n m'. Grabs V.keeps st m n m' };
}

// The value is home again.
pub struct Release;

impl<V: LockInvariant> Play<Option<V>, View<V::Key>> for Release {
    ghost use Rattle.keyed_lock.specs.Steps.{Releases};

    ghost then = { λ st m n m'. Releases st m n m' };
}

// The pass notes how many parts it gives away.
pub struct Offer;

impl<V: LockInvariant> Play<Option<V>, View<V::Key>> for Offer {
    ghost use Rattle.keyed_lock.specs.Steps.{Offers};

    ghost then = { λ st m n m'. Offers st m n m' };
}

pub struct Cut;

impl<K> Split<View<K>> for Cut {
    ghost use Rattle.keyed_lock.specs.Steps.{kept_view, given_view};

    ghost left = { kept_view };

    ghost right = { given_view };
}

pub struct Glue;

impl<K> Join<View<K>> for Glue {
    ghost use Rattle.keyed_lock.specs.Rule.{spent_view};
    ghost use Rattle.keyed_lock.specs.Steps.{joined_view};

    ghost both = { joined_view };

    ghost spent = { spent_view };
}
