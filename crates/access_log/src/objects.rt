//! The objects that accesses name.

ghost use Rattle.std.specs.Prelude.{◌≡◌, ◌≢◌, ◌-◌, ◌^◌, ◌<◌, ◌≤◌, ℕ, List, [], ◌∷◌, ◌++◌, Some, is_none, ◌&&◌, length, vec_len, vec_capacity, nat_eq, position, slice_get, Contains, IfOk, IfSome, OnOk, OnErr, AllPairs, ◌+◌, ◌*◌};
ghost use Rattle.topk_theory.specs.declared.access.Access.{Access as Made};
ghost use Rattle.topk_theory.specs.Transcript.{is_sorted, list_of, object_of, named_objects, seen_objects};
ghost use Rattle.topk_theory.specs.Bounds.{known_grade};
ghost use Rattle.topk_theory.specs.Consistent.{SomeAgrees};
ghost use Rattle.access_log.specs.RecordsKept.{AreRecords, is_read};
ghost use Rattle.access_log.specs.Objects.{AreObjects, HasRoom, IsNoted, FitsAccess, IsPlaced};

use super::Memory;
use super::ahead::Ahead;
use super::kinds::Known;
use super::record::Record;
use containers::RoomMap;
use std::alloc::Global;
use topk_base::{MAX_LISTS, MAX_OBJECTS};
use topk_theory::Access;

/// The record of an object that no access names.
const UNNAMED: Record = Record {
    known: [None; MAX_LISTS],
    read: [false; MAX_LISTS],
    sight: None,
};

/// The objects that accesses name, by their places in the order in which they were named; the seen
/// ones in the order of first sight; and for how many objects there is room.
#[derive(Drop)]
pub struct Objects {
    /// For how many objects there is room.
    pub room: u32,
    /// The objects that accesses name, each with its place.
    pub names: RoomMap,
    /// The record of each, by its place.
    pub records: Vec<Record>,
    /// The objects that sorted accesses gave, in the order of first sight.
    pub sights: Vec<u32>,
    /// The grades that are known ahead of the lists, by the places of their objects.
    pub ahead: Ahead,
}

/// How many more than `len` the room is.
fn missing(room: u32, len: usize) -> usize
    ensures { result ≡ room - len }
{
    (room as usize).saturating_sub(len)
}

/// Whether the access is the first sight of its object.
fn is_first_sight(named: &Record, access: Access) -> bool
    ensures { result ≡ (is_sorted access && is_none named.now.sight) }
{
    access.is_sorted() && named.sight.is_none()
}

/// Notes an access of the object at a place in its record and among the seen ones, and says whether
/// its list gave it before.
fn note_record(records: &mut Vec<Record>, sights: &mut Vec<u32>, place: u32, access: Access) -> bool
    requires place { place < length records.old.items }
    requires list { list_of access < MAX_LISTS }
    requires few { vec_len sights.old < 2 ^ 32 }
    requires room { vec_len sights.old < vec_capacity sights.old }
    ensures notes { (m n : ℕ) (A : List Made) (names : List ℕ) → SomeAgrees m n (A ++ access ∷ [])
        → AllPairs (λ (a : ℕ) (b : ℕ). a ≢ b) names → slice_get names place ≡ Some (object_of access)
        → AreRecords m A names records.old.items → sights.old.items ≡ seen_objects A
        → IsNoted m A access names records.new.items sights.new.items result }
    ensures record_room { vec_capacity records.new ≡ vec_capacity records.old }
    ensures sight_room { vec_capacity sights.new ≡ vec_capacity sights.old }
{
    let record = &mut records[place as usize];
    let read = record.read[access.list() as usize];
    let first = is_first_sight(record, access);
    record.note(access, sights.len() as u32);
    if first {
        sights.push_reserved(access.object());
    }
    read
}

impl Objects {
    /// No objects, of so many lists.
    pub fn make(alloc: Global, lists: u8) -> Result<Objects, Memory>
        ensures empty { IfOk result (λ objects. AreObjects lists [] objects) }
        ensures room { IfOk result HasRoom }
    {
        Ok(Objects {
            room: 0,
            ahead: Ahead::make(alloc, lists)?,
            sights: Vec::with_capacity(alloc, 1)?,
            names: RoomMap::make(alloc, 0)?,
            records: Vec::new(alloc),
        })
    }

    /// Makes room for at least `room` objects.
    pub fn widen(&mut self, room: u32) -> Result<(), Memory>
        requires few { room ≤ MAX_OBJECTS }
        requires room { HasRoom self.old }
        ensures ok { OnOk result (room ≤ self.new.room) }
        ensures no_less { self.old.room ≤ self.new.room }
        ensures room { HasRoom self.new }
        ensures names { self.new.names.keys ≡ self.old.names.keys }
        ensures kept { (m : ℕ) (A : List Made) → AreObjects m A self.old → AreObjects m A self.new }
    {
        if room > self.room {
            self.names.widen(room)?;
            self.records.reserve(missing(room, self.records.len()))?;
            self.sights.reserve(missing(room, self.sights.len()) + 1)?;
            self.ahead.widen(room)?;
            self.room = room;
        }
        Ok(())
    }

    /// Makes room for one more object, where there is none; twice the room, so that many come to little
    /// each.
    pub fn grow(&mut self) -> Result<(), Memory>
        requires fits { length self.old.names.keys < MAX_OBJECTS }
        requires room { HasRoom self.old }
        ensures ok { OnOk result (length self.new.names.keys < self.new.room) }
        ensures refused { OnErr result (self.old.room ≤ length self.old.names.keys) }
        ensures no_less { self.old.room ≤ self.new.room }
        ensures room { HasRoom self.new }
        ensures kept { (m : ℕ) (A : List Made) → AreObjects m A self.old → AreObjects m A self.new }
    {
        let len = self.names.len();
        if len < self.room {
            return Ok(());
        }
        self.widen((2 * len + 8).min(MAX_OBJECTS))
    }

    /// The place of an object that an access names.
    pub fn place(&self, object: u32) -> Option<u32>
        ensures { result ≡ position (nat_eq object) self.now.names.keys }
    {
        self.names.place(object)
    }

    /// What is known in a list of the object at a place; of one without a place nothing is.
    pub fn look(&self, place: Option<u32>, list: u8) -> Known
        requires list { list < MAX_LISTS }
        requires place { IfSome place (λ at. at < length self.now.records.items) }
        ensures { (m object : ℕ) (A : List Made) → list < m → AreObjects m A self.now
            → place ≡ position (nat_eq object) (named_objects A)
            → (result.grade ≡ known_grade A object list) × (result.read ≡ is_read A object list) }
    {
        match place {
            Some(place) => {
                let record = &self.records[place as usize];
                Known {
                    grade: record.known[list as usize],
                    read: record.read[list as usize],
                }
            }
            None => Known {
                grade: None,
                read: false,
            },
        }
    }

    /// Adds an object that no access names yet, and gives its place.
    fn name(&mut self, object: u32) -> u32
        requires room { HasRoom self.old }
        requires fits { length self.old.names.keys < self.old.room }
        requires absent { ¬ Contains self.old.names.keys object }
        requires as_many { length self.old.records.items ≡ length self.old.names.keys }
        ensures place { result ≡ length self.old.names.keys }
        ensures room { HasRoom self.new }
        ensures same_room { self.new.room ≡ self.old.room }
        ensures names { self.new.names.keys ≡ self.old.names.keys ++ object ∷ [] }
        ensures records { (m : ℕ) (A : List Made) → m ≤ MAX_LISTS → AreRecords m A self.old.names.keys self.old.records.items
            → ¬ Contains (named_objects A) object → AreRecords m A self.new.names.keys self.new.records.items }
        ensures sights { self.new.sights ≡ self.old.sights }
        ensures ahead { self.new.ahead ≡ self.old.ahead }
    {
        self.records.push_reserved(UNNAMED);
        self.names.add(object)
    }

    /// The place of an access's object, which is added where it has none. There is room for it.
    fn placed(&mut self, place: Option<u32>, access: Access) -> u32
        requires room { HasRoom self.old }
        requires known { (m n : ℕ) × (A : List Made) × FitsAccess m n A self.old place access }
        ensures place { (m n : ℕ) (A : List Made) → FitsAccess m n A self.old place access → IsPlaced m A access self.new result }
        ensures room { HasRoom self.new }
        ensures same_room { self.new.room ≡ self.old.room }
    {
        match place {
            Some(place) => place,
            None => self.name(access.object()),
        }
    }

    /// Notes an access that some table agrees with after the others. `place` is the place of its
    /// object. There is room for it.
    pub fn note(&mut self, place: Option<u32>, access: Access)
        requires room { HasRoom self.old }
        requires known { (m n : ℕ) × (A : List Made) × FitsAccess m n A self.old place access }
        ensures notes { (m n : ℕ) (A : List Made) → FitsAccess m n A self.old place access → AreObjects m (A ++ access ∷ []) self.new }
        ensures room { HasRoom self.new }
        ensures same_room { self.new.room ≡ self.old.room }
    {
        let place = self.placed(place, access);
        let read = note_record(&mut self.records, &mut self.sights, place, access);
        self.ahead.note(place, read, access);
    }
}
