use crate::logged::Logged;
use crate::seat::Place;
use std::marker::Model;

/// A right to take turns on one lock. To a contract it is the lock's table, and what the pass knows of the value.
///
/// It has no bytes. A pass that is dropped takes its parts with it, and in its turn also the value: the lock then
/// serves nobody any more.
#[derive(Drop)]
pub struct Pass<V: Logged> {
    pub(crate) seat: Place<V>,
}

impl<V: Logged> Model for Pass<V> {
    ghost use Rattle.atomic_table.specs.Seated.{TableId};
    ghost use Rattle.turn_lock.specs.declared.known.Known.{Known};
    ghost use Rattle.turn_lock.specs.Seats.{Poised};

    ghost Value = { TableId × Known V.Entry };

    ghost view = { λ p. (p.seat.table_id, p.seat.me.0.known) };

    ghost invariant = { λ p. Poised p.seat.me };
}
