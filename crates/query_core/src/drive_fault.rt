//! Why a machine that is driven over lists stops.

/// Why a query has no answer over lists that are told.
#[derive(Clone, Copy)]
pub enum DriveFault {
    /// The room that it states is less than the objects of its lists, and less than those that it has to
    /// see.
    RoomFull { room: u32 },
    /// No memory was left: for the machine, for its answer, or for a list's grades by object.
    Memory,
}
