// The moves of a pass on the table of a lock, over the seat that the pass is.
ghost use Rattle.std.specs.Prelude.{◌≡◌, ◌<◌, [], ◌∷◌, Some, None, IfSome, IfNone};
ghost use Rattle.turn_lock.specs.declared.facts.Facts.{Facts};
ghost use Rattle.turn_lock.specs.Known.{KnowsOf, Follows, holding, after_turn, without, split_off, joined};
ghost use Rattle.turn_lock.specs.Steps.{IsDrawn};
ghost use Rattle.turn_lock.specs.Seats.{IsSeatOf, IsSameSeat, Rests, InTurn, Waits, Took, MayGive, GivesTurn, Counted, Gave};

use crate::logged::Logged;
use crate::notify::Notify;
use crate::rule::{Compare, Count, Cut, Glue, Grab, Offer, PassOn, Turns, Watch};
use crate::view::View;
use atomic_table::{Seat, Shared};
use std::hint::spin_loop;
use std::snapshot::Snapshot;
use std::sync::Wait;

/// The words of the table: the next ticket, the ticket that is served, and the length of the log.
const TICKET: usize = 0;

const SERVING: usize = 1;

const LENGTH: usize = 2;

pub type Desk<V> = Shared<Option<V>, View<<V as Logged>::Entry>, Snapshot<V>, Turns>;

pub type Place<V> = Seat<Option<V>, View<<V as Logged>::Entry>>;

/// How often a pass looks whether the lock is free before it sleeps.
const LOOKS: u32 = 100;

// Draws the next ticket, where nobody has the turn or waits for one.
fn try_draw<V: Logged>(desk: &Desk<V>, seat: &mut Place<V>) -> Option<u64>
    requires desk { IsSeatOf desk.now.table_id seat.old.table_id }
    requires rests { Rests seat.old.me }
    ensures same { IsSameSeat seat.old seat.new }
    ensures drawn { IfSome result (λ ticket. IsDrawn ticket seat.old.me seat.new.me) }
    ensures kept { IfNone result (seat.new.me ≡ seat.old.me) }
{
    let ticket = desk.peek(TICKET);
    if desk.peek(SERVING) == ticket
        && desk.compare_exchange::<Grab>(seat, TICKET, ticket, ticket.wrapping_add(1)) == ticket
    {
        Some(ticket)
    } else {
        None
    }
}

// Draws a ticket as soon as it is served at once, so that nobody holds a place while it sleeps. A turn takes about as long as the looks, so where
// the pass that has it runs, the others seldom sleep.
fn draw<V: Logged, R: Wait>(rt: &R, desk: &Desk<V>, free: &Notify, seat: &mut Place<V>) -> u64
    requires desk { IsSeatOf desk.now.table_id seat.old.table_id }
    requires rests { Rests seat.old.me }
    ensures same { IsSameSeat seat.old seat.new }
    ensures drawn { IsDrawn result seat.old.me seat.new.me }
{
    let mut looks = 0;
    for _ in rt.forever() {
        let epoch = free.epoch();
        if let Some(ticket) = try_draw(desk, seat) {
            return ticket;
        }
        if looks < LOOKS {
            looks += 1;
            spin_loop();
        } else {
            free.wait(rt, epoch);
        }
    }
    unreachable!()
}

// Takes the slot once the ticket is served, which it is when it was drawn.
fn wait_for<V: Logged, R: Wait>(rt: &R, desk: &Desk<V>, seat: &mut Place<V>, ticket: u64)
    requires desk { IsSeatOf desk.now.table_id seat.old.table_id }
    requires waits { Waits ticket seat.old.me }
    ensures same { IsSameSeat seat.old seat.new }
    ensures took { Took V.facts seat.old.me seat.new.me }
{
    for _ in rt.forever() {
        if desk.load::<Watch>(seat, SERVING) == ticket {
            return;
        }
        spin_loop();
    }
    unreachable!()
}

// Waits for a turn, and takes the value out.
pub fn enter<V: Logged + Drop, R: Wait>(
    rt: &R,
    desk: &Desk<V>,
    free: &Notify,
    seat: &mut Place<V>,
) -> V
    requires desk { IsSeatOf desk.now.table_id seat.old.table_id }
    requires rests { Rests seat.old.me }
    ensures same { IsSameSeat seat.old seat.new }
    ensures turn { InTurn seat.new.me × (seat.new.me.0.known ≡ holding (V.facts result) seat.old.me.0.known) }
    ensures value { KnowsOf (V.facts result) seat.old.me.0.known }
{
    let ticket = draw(rt, desk, free, seat);
    wait_for(rt, desk, seat, ticket);
    match desk.exchange(seat, 0, None) {
        Some(value) => value,
        None => unreachable!(),
    }
}

// Puts a value into the slot, and tells how long its log is.
fn put<V: Logged + Drop>(desk: &Desk<V>, seat: &mut Place<V>, value: V) -> u64
    requires desk { IsSeatOf desk.now.table_id seat.old.table_id }
    requires turn { InTurn seat.old.me }
    requires change { MayGive (V.facts value) seat.old.me.0.known }
    ensures same { IsSameSeat seat.old seat.new }
    ensures hand { seat.new.me ≡ (seat.old.me.0, (0, Some value) ∷ []) }
    ensures gives { GivesTurn V.facts result seat.new.me }
{
    let length = value.length();
    drop(desk.exchange(seat, 0, Some(value)));
    length
}

// Writes the length of the new log. From now on the value in the slot is in force.
fn count<V: Logged>(desk: &Desk<V>, seat: &mut Place<V>, length: u64)
    requires desk { IsSeatOf desk.now.table_id seat.old.table_id }
    requires gives { GivesTurn V.facts length seat.old.me }
    ensures same { IsSameSeat seat.old seat.new }
    ensures given { Gave V.facts seat.new.me }
    ensures counted { Counted V.facts seat.old.me seat.new.me }
{
    desk.store::<Count>(seat, LENGTH, length);
}

// Serves the next ticket, and wakes a pass that waits for a turn.
fn pass_on<V: Logged>(desk: &Desk<V>, free: &Notify, seat: &mut Place<V>)
    requires desk { IsSeatOf desk.now.table_id seat.old.table_id }
    requires given { Gave V.facts seat.old.me }
    ensures same { IsSameSeat seat.old seat.new }
    ensures rests { Rests seat.new.me }
    ensures known { seat.new.me.0.known ≡ record seat.old.me.0.known { held = None } }
{
    desk.fetch_add::<PassOn>(seat, SERVING, 1);
    free.notify_one();
}

// Puts a value home, and ends the turn.
pub fn leave<V: Logged + Drop>(desk: &Desk<V>, free: &Notify, seat: &mut Place<V>, value: V)
    requires desk { IsSeatOf desk.now.table_id seat.old.table_id }
    requires turn { InTurn seat.old.me }
    requires change { MayGive (V.facts value) seat.old.me.0.known }
    ensures same { IsSameSeat seat.old seat.new }
    ensures rests { Rests seat.new.me }
    ensures known { (f : Facts V.Entry) → seat.old.me.0.known.held ≡ Some f → seat.new.me.0.known ≡ after_turn f (V.facts value) seat.old.me.0.known }
{
    let length = put(desk, seat, value);
    count(desk, seat, length);
    pass_on(desk, free, seat);
}

// Splits a seat off, with so many parts.
pub fn cut<V: Logged>(desk: &Desk<V>, seat: &mut Place<V>, parts: u64) -> Place<V>
    requires desk { IsSeatOf desk.now.table_id seat.old.table_id }
    requires rests { Rests seat.old.me }
    requires room { (0 < parts) × (parts < seat.old.me.0.known.parts) }
    ensures same { IsSameSeat seat.old seat.new }
    ensures kept { Rests seat.new.me × (seat.new.me.0.known ≡ without parts seat.old.me.0.known) }
    ensures given { (result.table_id ≡ seat.old.table_id) × Rests result.me × (result.me.0.known ≡ split_off parts seat.old.me.0.known) }
{
    desk.compare_exchange::<Offer>(seat, TICKET, parts, parts);
    desk.split_seat::<Cut>(seat)
}

// Takes in what another seat knows.
pub fn glue<V: Logged>(desk: &Desk<V>, seat: &mut Place<V>, other: Place<V>)
    requires desk { IsSeatOf desk.now.table_id seat.old.table_id × (other.table_id ≡ seat.old.table_id) }
    requires rests { Rests seat.old.me × Rests other.me }
    ensures same { IsSameSeat seat.old seat.new }
    ensures known { Rests seat.new.me × (seat.new.me.0.known ≡ joined seat.old.me.0.known other.me.0.known) }
    ensures follows { Follows seat.old.me.0.known seat.new.me.0.known × Follows other.me.0.known seat.new.me.0.known }
    ensures name { other.me.0.known.name ≡ seat.old.me.0.known.name }
{
    desk.join_seat::<Glue>(seat, other);
    desk.load::<Compare>(seat, TICKET);
}
