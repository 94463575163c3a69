use crate::lock_invariant::LockInvariant;
use crate::seat::Place;
use std::marker::Model;

/// A right to take the values of one lock. To a contract it is the lock's table, and what the pass has.
///
/// It has no bytes. A pass that is dropped takes its parts with it, and where it has a value also that: the lock
/// then gives this value to nobody any more.
#[derive(Drop)]
pub struct Pass<V: LockInvariant> {
    pub(crate) seat: Place<V>,
}

impl<V: LockInvariant> Model for Pass<V> {
    ghost use Rattle.atomic_table.specs.Seated.{TableId};
    ghost use Rattle.keyed_lock.specs.declared.hold.Hold.{Hold};
    ghost use Rattle.keyed_lock.specs.Seats.{Poised};

    ghost Value = { TableId × Hold V.Key };

    ghost view = { λ p. (p.seat.table_id, p.seat.me.0.hold) };

    ghost invariant = { λ p. Poised p.seat.me };
}
