ghost use Rattle.std.specs.Prelude.{◌≡◌, ◌-◌, ◌+◌, ◌<◌, ◌≤◌, ◌^◌, ℕ, IfOk, IfSome, IfNone};
ghost use Rattle.tickets.specs.Draws.{all_parts, times, opened, drawing, with_parts, fresh, joined};
ghost use Rattle.tickets.specs.Rule.{drawn_before};

use crate::pass::TicketPass;
use crate::rule::Once;
use crate::seat;
use crate::view::View;
use atomic_table::{Refused, Table};
use std::alloc::{AllocError, Global};
use std::marker::Model;

/// The numbers from 0 up, each of which one pass draws. To a contract it is the table that they stand on.
#[derive(Drop)]
pub struct Tickets {
    table: Table<(), View, (), Once, Global>,
}

impl Model for Tickets {
    ghost use Rattle.std.specs.Prelude.{◌≡◌};
    ghost use Rattle.atomic_table.specs.Seated.{TableId};

    ghost Value = { TableId };

    ghost view = { λ l. l.table.shared.table_id };

    ghost invariant = { λ l. (l.table.shared.table_id.words ≡ 1) × (l.table.shared.table_id.slots ≡ 0) };
}

impl Tickets {
    /// Tickets of which none was drawn, with the pass that has all 2^40 parts.
    pub fn open(alloc: Global) -> Result<(Tickets, TicketPass), AllocError>
        ensures { IfOk result (λ r. r.1 ≡ (r.0, opened)) }
    {
        match Table::new(alloc, &[0], Vec::new(alloc), &()) {
            Ok((table, seat)) => Ok((Tickets { table }, TicketPass { seat })),
            Err(Refused { slots }) => {
                drop(slots);
                Err(AllocError)
            }
        }
    }

    /// Draws the next number, where it is below a limit.
    pub fn draw(&self, pass: &mut TicketPass, limit: u64) -> Option<u64>
        requires own { pass.old.0 ≡ self.now }
        ensures some { IfSome result (λ number. (number < limit) × (pass.new ≡ (self.now, drawing number pass.old.1))) }
        ensures none { IfNone result (pass.new ≡ pass.old) }
    {
        seat::draw_next(&self.table.shared, &mut pass.seat, limit)
    }

    /// Splits a pass off, which gets so many of the parts, and drew nothing.
    pub fn split(&self, pass: &mut TicketPass, parts: u64) -> TicketPass
        requires own { pass.old.0 ≡ self.now }
        requires room { (0 < parts) × (parts < pass.old.1.parts) }
        ensures kept { pass.new ≡ (self.now, with_parts (pass.old.1.parts - parts) pass.old.1) }
        ensures given { result ≡ (self.now, fresh parts) }
    {
        let seat = seat::cut(&self.table.shared, &mut pass.seat, parts);
        TicketPass { seat }
    }

    /// Makes one pass of two, with the parts and the numbers of both.
    pub fn join(&self, pass: &mut TicketPass, other: TicketPass)
        requires own { (pass.old.0 ≡ self.now) × (other.0 ≡ self.now) }
        ensures { pass.new ≡ (self.now, joined pass.old.1 other.1) }
    {
        let TicketPass { seat: other } = other;
        seat::glue(&self.table.shared, &mut pass.seat, other);
    }

    /// Ends the drawing, by the pass that has all parts: how many numbers were drawn. Each of those below was drawn once, and no other.
    pub fn close(self, pass: TicketPass) -> u64
        requires own { pass.0 ≡ self }
        requires whole { pass.1.parts ≡ all_parts }
        ensures { (number : ℕ) → times number pass.1.drawn ≡ drawn_before result number }
    {
        let Tickets { table } = self;
        let TicketPass { seat } = pass;
        let closed = table.close_with(seat);
        let next = closed.word(0);
        closed.free();
        next
    }
}
