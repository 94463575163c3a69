// The rule of a lock's table, and its steps. `specs/Rule.antt` and `specs/Steps.antt` say what they mean.
use crate::logged::Logged;
use crate::view::View;
use atomic_table::{Join, Play, Split, TableRule};
use std::snapshot::Snapshot;

pub struct Turns;

impl<V: Logged> TableRule<Option<V>, View<V::Entry>, Snapshot<V>> for Turns {
    ghost use Rattle.turn_lock.specs.Rule.{Ruled, first_view};

    ghost holds = { λ _ s. Ruled V.facts s };

    ghost first = { λ opening. first_view (V.facts opening.value) };
}

// The next ticket is drawn, where it is the one that was expected.
pub struct Grab;

impl<V: Logged> Play<Option<V>, View<V::Entry>> for Grab {
    ghost use Rattle.turn_lock.specs.Steps.{Grabs};

    ghost then = { λ st m n m'. Grabs st m n m' };
}

// The ticket that is served is read, and the value taken where it is the pass's own.
pub struct Watch;

impl<V: Logged> Play<Option<V>, View<V::Entry>> for Watch {
    ghost use Rattle.turn_lock.specs.Steps.{Watches};

    ghost then = { λ st m n m'. Watches V.facts st m n m' };
}

// The length of the new log is written.
pub struct Count;

impl<V: Logged> Play<Option<V>, View<V::Entry>> for Count {
    ghost use Rattle.turn_lock.specs.Steps.{Counts};

    ghost then = { λ st m n m'. Counts V.facts st m n m' };
}

// The next ticket is served.
pub struct PassOn;

impl<V: Logged> Play<Option<V>, View<V::Entry>> for PassOn {
    ghost use Rattle.turn_lock.specs.Steps.{PassesOn};

    ghost then = { λ st m n m'. PassesOn st m n m' };
}

// The pass notes how many parts it gives away.
pub struct Offer;

impl<V: Logged> Play<Option<V>, View<V::Entry>> for Offer {
    ghost use Rattle.turn_lock.specs.Steps.{Offers};

    ghost then = { λ st m n m'. Offers st m n m' };
}

// Two passes that are now one compare what they saw.
pub struct Compare;

impl<V: Logged> Play<Option<V>, View<V::Entry>> for Compare {
    ghost use Rattle.turn_lock.specs.Steps.{Compares};

    ghost then = { λ st m n m'. Compares st m n m' };
}

pub struct Cut;

impl<E> Split<View<E>> for Cut {
    ghost use Rattle.turn_lock.specs.Steps.{kept_view, given_view};

    ghost left = { kept_view };

    ghost right = { given_view };
}

pub struct Glue;

impl<E> Join<View<E>> for Glue {
    ghost use Rattle.turn_lock.specs.Rule.{spent_view};
    ghost use Rattle.turn_lock.specs.Steps.{joined_view};

    ghost both = { joined_view };

    ghost spent = { spent_view };
}
