use crate::seat::Place;
use std::marker::Model;

/// A right to draw. To a contract it is the table of the tickets, and what the pass drew. It has no bytes.
#[derive(Drop)]
pub struct TicketPass {
    pub(crate) seat: Place,
}

impl Model for TicketPass {
    ghost use Rattle.atomic_table.specs.Seated.{TableId};
    ghost use Rattle.tickets.specs.declared.draws.Draws.{Draws};
    ghost use Rattle.tickets.specs.Rule.{Poised};

    ghost Value = { TableId × Draws };

    ghost view = { λ p. (p.seat.table_id, p.seat.me.0.has) };

    ghost invariant = { λ p. Poised p.seat.me };
}
