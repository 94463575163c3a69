//! Why a machine doesn't take a row.

/// Why a machine didn't take a row.
#[derive(Clone, Copy, PartialEq, Eq)]
pub enum CoreFault {
    /// The row's object is one more than the `count` objects that each list has.
    Strangers { object: u32, count: u32 },
    /// The row's object is one more than the room that was stated, which is less than the count.
    RoomFull { room: u32 },
}

impl CoreFault {
    ghost use Rattle.std.specs.Prelude.{◌≡◌, ◌==◌, if◌then◌else◌};

    /// The fault of an object for which there is no room, over lists of `count` objects with `room` of
    /// them to be seen.
    pub fn of_room(count: u32, room: u32, object: u32) -> CoreFault
        ensures { result ≡ (if room == count then CoreFault.Strangers object count else CoreFault.RoomFull room) }
    {
        if room == count {
            CoreFault::Strangers { object, count }
        } else {
            CoreFault::RoomFull { room }
        }
    }
}
