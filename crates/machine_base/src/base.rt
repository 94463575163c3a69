//! What every machine holds.

ghost use Rattle.std.specs.Prelude.{◌≡◌, ◌≤◌, ◌*◌, [], IfOk, IfErr, OnOk};
ghost use Rattle.access_log.specs.Log.{IsWithinLimits};
ghost use Rattle.machine_base.specs.Machine.{IsBegun, HasRoomFor};
ghost use Rattle.machine_base.specs.Base.{shown, Holds, IsReserved, IsTold, CanTake, TellsNew, HasNoRoom};

use super::core_fault::CoreFault;
use access_log::{Access, Memory, Transcript};
use monotone_fn::{Costs, Expr};
use ranked_list::Need;
use std::alloc::Global;
use topk_base::MAX_OBJECTS;

/// What a machine holds of its query and of its accesses, whatever its algorithm: the expression, how
/// many objects are asked, how many it may see, the costs of accesses, and the accesses so far.
#[derive(Drop)]
pub struct Base {
    pub expr: Expr,
    pub k: u32,
    pub room: u32,
    pub costs: Costs,
    pub transcript: Transcript,
}

/// No accesses, with room for `room` objects, and for a sorted and a random access of each list for
/// each of them.
fn reserved_transcript(
    alloc: Global,
    lists: u8,
    count: u32,
    room: u32,
) -> Result<Transcript, Memory>
    requires limits { IsWithinLimits lists count }
    requires room { room ≤ MAX_OBJECTS }
    ensures { IfOk result (λ log. log ≡ record { lists = lists; count = count; accesses = []; spare_objects = room; spare_accesses = 2 * (lists * room) }) }
{
    let mut transcript = Transcript::make(alloc, lists, count)?;
    match transcript.reserve(room, 2 * (u64::from(lists) * u64::from(room))) {
        Ok(()) => Ok(transcript),
        Err(_) => {
            transcript.let_go();
            Err(Memory)
        }
    }
}

impl Base {
    /// For the first `k` of `count` objects, of which `room` may be seen at most, before any access. No
    /// other call takes memory.
    ///
    /// *Cost*: the room that it reserves: for the lesser of the room and the count, that many objects, and twice as
    /// many accesses for each list.
    pub fn make(
        alloc: Global,
        expr: Expr,
        k: u32,
        count: u32,
        room: u32,
        costs: Costs,
    ) -> Result<Base, Memory>
        requires asked { 1 ≤ k }
        requires fits { k ≤ count }
        requires counted { count ≤ MAX_OBJECTS }
        requires roomy { 1 ≤ room }
        ensures begun { IfOk result (λ base. IsBegun expr k count room costs (shown base Need.Done)) }
        ensures held { IfOk result Holds }
        ensures reserved { IfOk result IsReserved }
    {
        let room = room.min(count);
        let lists = expr.lists();
        let Ok(transcript) = reserved_transcript(alloc, lists, count, room) else {
            expr.let_go();
            return Err(Memory);
        };
        Ok(Base {
            expr,
            k,
            room,
            costs,
            transcript,
        })
    }

    /// Whether an object is new. Where it is, and there is no room for one more, it is a stranger if the
    /// room is the count, and else the room is full.
    ///
    /// *Cost*: a look-up.
    pub fn test_room(&self, object: u32) -> Result<bool, CoreFault>
        requires { Holds self.now }
        ensures new { IfOk result (TellsNew self.now.transcript.accesses object) }
        ensures fits { OnOk result (HasRoomFor (shown self.now Need.Done) object) }
        ensures full { IfErr result (HasNoRoom object self.now) }
    {
        let is_new = !self.transcript.is_seen(object);
        if is_new && self.transcript.seen() >= self.room {
            return Err(CoreFault::of_room(self.transcript.count(), self.room, object));
        }
        Ok(is_new)
    }

    /// Tells an access. Takes no memory.
    ///
    /// *Cost*: `Transcript::push` on reserved room. Takes no memory.
    pub fn tell(&mut self, access: Access)
        requires held { Holds self.old }
        requires reserved { IsReserved self.old }
        requires can { CanTake self.old access }
        ensures told { IsTold access self.old self.new }
        ensures held { Holds self.new }
        ensures reserved { IsReserved self.new }
    {
        match self.transcript.push(access) {
            Ok(()) => (),
            Err(_) => unreachable!(),
        }
    }

    /// The accesses, where the machine is given up.
    pub fn into_transcript(self) -> Transcript
        ensures { result ≡ self.transcript }
    {
        let Base {
            expr,
            transcript,
            ..
        } = self;
        expr.let_go();
        transcript
    }

    /// Lets it go, with what it holds. Who owns one lets it go by this call.
    pub fn let_go(self) {
        let Base {
            expr,
            transcript,
            ..
        } = self;
        expr.let_go();
        transcript.let_go();
    }
}
