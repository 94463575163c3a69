//! Transcripts.

use super::Memory;
use super::ends::Ends;
use super::fault::PushFault;
use super::inconsistency::first_kind;
use super::objects::Objects;
use super::room::{make_room, spare_after};
use monotone_fn::{Costs, Expr};
use std::alloc::Global;
use std::marker::Model;
use std::slice::Iter;
use topk_base::{MAX_LISTS, MAX_NUMBER, MAX_OBJECTS};
use topk_theory::Access;

/// The known grades of an object that no access names.
static NONE_KNOWN: [Option<u32>; MAX_LISTS] = [None; MAX_LISTS];

/// The accesses that a query made, in their order, with the grades that they gave. Some table of
/// its lists and its number of objects always agrees with it. Contracts see it as a `Log`.
///
/// Beside the accesses it keeps what its calls answer, so that none scans them: a record for each
/// object, found by a look-up, and the ends of the lists.
#[derive(Drop)]
pub struct Transcript {
    lists: u8,
    count: u32,
    accesses: Vec<Access>,
    objects: Objects,
    ends: Ends,
    spare_objects: u32,
    spare_accesses: u64,
}

impl Model for Transcript {
    ghost use Rattle.std.specs.Prelude.{vec_capacity};
    ghost use Rattle.access_log.specs.Log.{Log};

    ghost Value = { Log };

    ghost use Rattle.access_log.specs.Kept.{IsTranscriptKept};

    ghost view = { λ a. record {
      lists = a.lists;
      count = a.count;
      accesses = a.accesses.items;
      spare_objects = a.spare_objects;
      spare_accesses = a.spare_accesses;
    } };

    ghost invariant = { λ a. IsTranscriptKept a.lists a.count a.accesses.items (vec_capacity a.accesses) a.objects a.ends a.spare_objects a.spare_accesses };
}

impl Transcript {
    ghost use Rattle.std.specs.Prelude.{◌≡◌, ◌==◌, ◌+◌, ◌*◌, ◌<◌, ◌≤◌, ◌^◌, ◌↔◌, [], map, max, length, nat_eq, position, slice_get, Contains, Some, IsTrue, IfOk, OnOk, OnErr, IfErr};
    ghost use Rattle.topk_theory.specs.Transcript.{list_numbers, depth_of, bottom_of, named_objects, seen_objects, sorted_count, random_count, cost};
    ghost use Rattle.std.specs.Slice.Iter.{iter_rest};
    ghost use Rattle.std.specs.Iterator.Adapters.{IterYieldsInOrder};
    ghost use Rattle.topk_theory.specs.declared.access.Access.{Access};
    ghost use Rattle.topk_theory.specs.Bounds.{known_grade, low, high};
    ghost use Rattle.monotone_fn.specs.Shape.{list_count};
    ghost use Rattle.monotone_fn.specs.Value.{value};
    ghost use Rattle.monotone_fn.specs.Limits.{AreGrades, AreGradesWhereKnown};
    ghost use Rattle.access_log.specs.Log.{with_access, IsConsistent, IsWithinLimits};
    ghost use Rattle.access_log.specs.Refusal.{Refuses};

    /// No access yet, of so many lists of `count` objects each, and no room reserved.
    pub fn make(alloc: Global, lists: u8, count: u32) -> Result<Transcript, Memory>
        requires { IsWithinLimits lists count }
        ensures { IfOk result (λ t. t ≡ record { lists = lists; count = count; accesses = []; spare_objects = 0; spare_accesses = 0 }) }
    {
        let objects = Objects::make(alloc, lists)?;
        Ok(Transcript {
            lists,
            count,
            accesses: Vec::new(alloc),
            objects,
            ends: Ends::start(),
            spare_objects: 0,
            spare_accesses: 0,
        })
    }

    /// Reserves room for at least so many more objects and accesses, for which `push` then wants no
    /// memory. Where memory is refused nothing has changed.
    ///
    /// *Cost*: what it reserves.
    pub fn reserve(&mut self, objects: u32, accesses: u64) -> Result<(), Memory>
        requires { length (named_objects self.old.accesses) + objects ≤ MAX_OBJECTS }
        ensures ok { OnOk result (self.new
            ≡ record self.old { spare_objects = max self.old.spare_objects objects; spare_accesses = max self.old.spare_accesses accesses }) }
        ensures err { OnErr result (self.new ≡ self.old) }
    {
        let room = self.objects.names.len() + objects;
        self.objects.widen(room)?;
        self.accesses.reserve(accesses as usize)?;
        self.spare_objects = self.spare_objects.max(objects);
        self.spare_accesses = self.spare_accesses.max(accesses);
        Ok(())
    }

    /// Adds an access, where some table agrees with it after the others. Where it is refused nothing
    /// has changed. Memory is wanted only where no room is reserved.
    ///
    /// *Cost*: a look-up, and at most a logarithm of the objects for the grades ahead; without reserved room it grows
    /// by doubling.
    pub fn push(&mut self, access: Access) -> Result<(), PushFault>
        ensures ok { OnOk result (self.new ≡ with_access self.old access) }
        ensures agrees { OnOk result (IsConsistent self.new) }
        ensures err { OnErr result (self.new ≡ self.old) }
        ensures cause { IfErr result (Refuses self.old access) }
    {
        let place = self.objects.place(access.object());
        let kind = first_kind(
            self.lists,
            self.count,
            &self.objects,
            &self.ends,
            place,
            access,
        );
        if let Some(kind) = kind {
            let at = self.accesses.len() as u64 + 1;
            return Err(PushFault::Inconsistent { at, kind });
        }
        let Ok(()) = make_room(&mut self.accesses, &mut self.objects, place) else {
            return Err(PushFault::Memory);
        };
        self.accesses.push_reserved(access);
        self.objects.note(place, access);
        self.ends.note(access);
        self.spare_objects = spare_after(self.spare_objects, place);
        self.spare_accesses = self.spare_accesses.saturating_sub(1);
        Ok(())
    }

    /// How many sorted accesses read the list.
    ///
    /// *Cost*: constant.
    pub fn depth(&self, list: u8) -> u32
        requires { list < self.now.lists }
        ensures { result ≡ depth_of list self.now.accesses }
    {
        self.ends.depths[list as usize]
    }

    /// The last grade that a sorted access read from the list, and the greatest grade before the
    /// first.
    ///
    /// *Cost*: constant.
    pub fn bottom(&self, list: u8) -> u32
        requires { list < self.now.lists }
        ensures { result ≡ bottom_of list self.now.accesses }
    {
        self.ends.bottoms[list as usize]
    }

    /// The bottoms of the lists, by their numbers.
    pub fn bottoms(&self) -> &[u32]
        ensures bottoms { result.now ≡ map (λ list. bottom_of list self.now.accesses) (list_numbers self.now.lists) }
        ensures capped { AreGrades result.now }
    {
        &self.ends.bottoms[..self.lists as usize]
    }

    /// Whether a sorted access gave the object.
    ///
    /// *Cost*: a look-up.
    pub fn is_seen(&self, object: u32) -> bool
        ensures { IsTrue result ↔ Contains (seen_objects self.now.accesses) object }
    {
        self.sight_of(object).is_some()
    }

    /// How many objects sorted accesses gave.
    pub fn seen(&self) -> u32
        ensures { result ≡ length (seen_objects self.now.accesses) }
    {
        self.objects.sights.len() as u32
    }

    /// The place of an object in the order of first sight, from 0; None where no sorted access gave it.
    ///
    /// *Cost*: a look-up.
    pub fn sight_of(&self, object: u32) -> Option<u32>
        ensures { result ≡ position (nat_eq object) (seen_objects self.now.accesses) }
    {
        match self.objects.place(object) {
            Some(place) => self.objects.records[place as usize].sight,
            None => None,
        }
    }

    /// The object at a place in the order of first sight, from 0.
    pub fn object_at(&self, place: u32) -> u32
        requires { place < length (seen_objects self.now.accesses) }
        ensures { slice_get (seen_objects self.now.accesses) place ≡ Some result }
    {
        self.objects.sights[place as usize]
    }

    /// The known grades of an object, by the numbers of the lists.
    ///
    /// *Cost*: a look-up.
    pub fn known(&self, object: u32) -> &[Option<u32>]
        ensures known { result.now ≡ map (λ list. known_grade self.now.accesses object list) (list_numbers self.now.lists) }
        ensures capped { AreGradesWhereKnown result.now }
    {
        let lists = self.lists as usize;
        match self.objects.place(object) {
            Some(place) => &self.objects.records[place as usize].known[..lists],
            None => &NONE_KNOWN[..lists],
        }
    }

    /// The least aggregate that the object may have: the value with 0 in place of each unknown grade.
    ///
    /// *Cost*: a look-up and one evaluation of the expression.
    pub fn low(&self, expr: &Expr, object: u32) -> u64
        requires { list_count expr.now ≡ self.now.lists }
        ensures { result ≡ low (value expr.now) self.now.lists self.now.accesses object }
    {
        expr.eval_low(self.known(object))
    }

    /// The greatest aggregate that the object may have: the value with its list's bottom in place of
    /// each unknown grade.
    ///
    /// *Cost*: a look-up and one evaluation of the expression.
    pub fn high(&self, expr: &Expr, object: u32) -> u64
        requires { list_count expr.now ≡ self.now.lists }
        ensures { result ≡ high (value expr.now) self.now.lists self.now.accesses object }
    {
        expr.eval_high(self.known(object), self.bottoms())
    }

    /// How many accesses were sorted.
    pub fn sorted(&self) -> u64
        ensures { result ≡ sorted_count self.now.accesses }
    {
        self.ends.sorted
    }

    /// How many accesses were random.
    pub fn random(&self) -> u64
        ensures { result ≡ random_count self.now.accesses }
    {
        self.accesses.len() as u64 - self.ends.sorted
    }

    /// What the accesses cost.
    ///
    /// *Cost*: constant.
    pub fn cost(&self, costs: &Costs) -> u64
        requires sorted { costs.now.sorted ≤ MAX_NUMBER }
        requires random { costs.now.random ≤ MAX_NUMBER }
        requires accesses { length self.now.accesses < 2 ^ 40 }
        ensures { result ≡ cost costs.now.sorted costs.now.random self.now.accesses }
    {
        self.sorted() * u64::from(costs.sorted) + self.random() * u64::from(costs.random)
    }

    /// How many lists there are. With the accesses some table of so many lists agrees.
    pub fn lists(&self) -> u8
        ensures lists { result ≡ self.now.lists }
        ensures limits { IsWithinLimits self.now.lists self.now.count }
        ensures agrees { IsConsistent self.now }
    {
        self.lists
    }

    /// How many objects each list has.
    pub fn count(&self) -> u32
        ensures count { result ≡ self.now.count }
        ensures limits { IsWithinLimits self.now.lists self.now.count }
    {
        self.count
    }

    /// How many accesses there are. With each of them some table agrees.
    pub fn len(&self) -> u64
        ensures len { result ≡ length self.now.accesses }
        ensures agrees { IsConsistent self.now }
    {
        self.accesses.len() as u64
    }

    /// Whether there are none.
    pub fn is_empty(&self) -> bool
        ensures { result ≡ (length self.now.accesses == 0) }
    {
        self.accesses.is_empty()
    }

    /// The access at a place from 0, or None past the end.
    ///
    /// *Cost*: constant.
    pub fn get(&self, place: u64) -> Option<Access>
        ensures { result ≡ slice_get self.now.accesses place }
    {
        self.accesses.get(place as usize).copied()
    }

    /// The accesses, in their order. With each of them some table agrees.
    pub fn iter(&self) -> Iter<'_, Access>
        ensures rest { iter_rest result ≡ self.now.accesses }
        ensures few { length (iter_rest result) < 2 ^ 64 }
        ensures runs { IterYieldsInOrder Access }
        ensures agrees { IsConsistent self.now }
    {
        self.accesses.iter()
    }

    /// Lets a transcript go. Who owns one lets it go by this call, so that it is proved once.
    pub fn let_go(self) {}
}
