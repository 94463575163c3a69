// The moves of a pass on the table of a lock, over the seat that the pass is.
ghost use Rattle.std.specs.Prelude.{◌≡◌, ◌-◌, ◌<◌, Some, None, IfSome, IfNone};
ghost use Rattle.keyed_lock.specs.Hold.{holding, with_parts, joined, KeepsFact};
ghost use Rattle.keyed_lock.specs.Seats.{IsSeatOf, IsSameSeat, Poised};

use crate::lock_invariant::LockInvariant;
use crate::rule::{Cut, Glue, Grab, Keyed, Offer, Release};
use crate::view::View;
use atomic_table::{Seat, Shared};

/// The word on which parts are offered: what is found there doesn't matter.
const ANY: usize = 0;

pub type Desk<V> = Shared<
    Option<V>,
    View<<V as LockInvariant>::Key>,
    <V as LockInvariant>::Key,
    Keyed,
>;

pub type Place<V> = Seat<Option<V>, View<<V as LockInvariant>::Key>>;

// Takes the value at a place out, where no pass has it.
pub fn grab<V: LockInvariant + Drop>(desk: &Desk<V>, seat: &mut Place<V>, place: usize) -> Option<V>
    requires desk { IsSeatOf desk.now.table_id seat.old.table_id }
    requires place { place < desk.now.table_id.slots }
    requires poised { Poised seat.old.me }
    requires rests { seat.old.me.0.hold.held ≡ None }
    ensures same { IsSameSeat seat.old seat.new }
    ensures poised { Poised seat.new.me }
    ensures some { IfSome result (λ value. (seat.new.me.0.hold ≡ holding (Some place) seat.old.me.0.hold) × KeepsFact V.keeps seat.old.me.0.hold place value) }
    ensures none { IfNone result (seat.new.me.0.hold ≡ seat.old.me.0.hold) }
{
    if desk.compare_exchange::<Grab>(seat, place, 0, 1) == 0 {
        desk.exchange(seat, place, None)
    } else {
        None
    }
}

// Puts a value into the slot that is out, and the slot home.
pub fn put<V: LockInvariant + Drop>(desk: &Desk<V>, seat: &mut Place<V>, place: usize, value: V)
    requires desk { IsSeatOf desk.now.table_id seat.old.table_id }
    requires place { place < desk.now.table_id.slots }
    requires poised { Poised seat.old.me }
    requires held { seat.old.me.0.hold.held ≡ Some place }
    requires value { KeepsFact V.keeps seat.old.me.0.hold place value }
    ensures same { IsSameSeat seat.old seat.new }
    ensures poised { Poised seat.new.me }
    ensures hold { seat.new.me.0.hold ≡ holding None seat.old.me.0.hold }
{
    drop(desk.exchange(seat, place, Some(value)));
    desk.store::<Release>(seat, place, 0);
}

// Splits a seat off, with so many parts.
pub fn cut<V: LockInvariant>(desk: &Desk<V>, seat: &mut Place<V>, parts: u64) -> Place<V>
    requires desk { IsSeatOf desk.now.table_id seat.old.table_id }
    requires poised { Poised seat.old.me }
    requires rests { seat.old.me.0.hold.held ≡ None }
    requires room { (0 < parts) × (parts < seat.old.me.0.hold.parts) }
    ensures same { IsSameSeat seat.old seat.new }
    ensures kept { Poised seat.new.me × (seat.new.me.0.hold ≡ with_parts (seat.old.me.0.hold.parts - parts) seat.old.me.0.hold) }
    ensures given { (result.table_id ≡ seat.old.table_id) × Poised result.me × (result.me.0.hold ≡ with_parts parts seat.old.me.0.hold) }
{
    desk.compare_exchange::<Offer>(seat, ANY, parts, parts);
    desk.split_seat::<Cut>(seat)
}

// Takes in the parts of another seat.
pub fn glue<V: LockInvariant>(desk: &Desk<V>, seat: &mut Place<V>, other: Place<V>)
    requires desk { IsSeatOf desk.now.table_id seat.old.table_id × (other.table_id ≡ seat.old.table_id) }
    requires poised { Poised seat.old.me × Poised other.me }
    requires rests { (seat.old.me.0.hold.held ≡ None) × (other.me.0.hold.held ≡ None) }
    ensures same { IsSameSeat seat.old seat.new }
    ensures hold { Poised seat.new.me × (seat.new.me.0.hold ≡ joined seat.old.me.0.hold other.me.0.hold) }
{
    desk.join_seat::<Glue>(seat, other);
}
