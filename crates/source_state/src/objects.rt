//! The rows that were kept and the asks, with one table that has what is kept of each object.

ghost use Rattle.std.specs.Prelude.{◌≡◌, ◌<◌, ◌≤◌, [], ◌∷◌, ◌++◌, None, nat_eq, length, slice_get, position, is_some, IfOk};
ghost use Rattle.std.specs.Option.{option_map};
ghost use Rattle.ranked_list.specs.Table.{top_grade};
ghost use Rattle.topk_theory.specs.Transcript.{last_grade};
ghost use Rattle.topk_theory.specs.Bounds.{grade_among};
ghost use Rattle.source_state.specs.ObjectKeeping.{IsVacant, ask_objects};
ghost use Rattle.source_state.specs.Asks.{ask_of, first_above, first_due, settled_asks, held_asks, new_ask, with_one_more};

use super::Memory;
use super::ask::Ask;
use super::entry::Settling;
use super::spots::{Request, Spot, first_open, next_due, put_spot, set_top, spot_of, standing};
use containers::{IndexedHeap, ObjectMap};
use ranked_list::Row;
use std::alloc::Global;
use std::marker::Model;
use topk_base::{MAX_OBJECTS, TOP_GRADE};

/// How many numbers the table has beside the room: an object with a greater one is found by its hash.
const BESIDE: u32 = 64;

/// Rows in order and asks in the order of asking, each of distinct objects, with room for so many of each. Only `make` takes memory.
#[derive(Drop)]
pub struct Objects {
    room: u32,
    spots: ObjectMap<Spot>,
    rows: Vec<Row>,
    requests: Vec<Request>,
    /// The good grades that the rows don't hold, by the places of their asks.
    tops: IndexedHeap<u32>,
    /// No ask before this place is due.
    cursor: u32,
}

impl Model for Objects {
    ghost use Rattle.std.specs.Prelude.{vec_capacity};
    ghost use Rattle.source_state.specs.ObjectKeeping.{ObjectList, listed, KeepsObjects};

    ghost Value = { ObjectList };

    ghost view = { λ a. listed a.room a.spots a.rows.items a.requests.items };

    ghost invariant = { λ a. KeepsObjects (listed a.room a.spots a.rows.items a.requests.items) a.spots a.tops a.cursor
        (vec_capacity a.rows) (vec_capacity a.requests) };
}

/// An empty table, with memory for `room` rows and as many asks.
fn make_spots(alloc: Global, room: u32) -> Result<ObjectMap<Spot>, Memory>
    requires { room ≤ MAX_OBJECTS }
    ensures { IfOk result (λ spots. IsVacant room spots) }
{
    let mut spots = ObjectMap::make(alloc);
    spots.reserve(2 * room)?;
    spots.widen(room + BESIDE)?;
    Ok(spots)
}

impl Objects {
    /// Neither rows nor asks, with room for so many of each.
    pub fn make(alloc: Global, room: u32) -> Result<Objects, Memory>
        requires { room ≤ MAX_OBJECTS }
        ensures { IfOk result (λ list. list ≡ record { room = room; rows = []; asks = [] }) }
    {
        let spots = make_spots(alloc, room)?;
        let Ok(rows) = Vec::with_capacity(alloc, room as usize) else {
            return Err(Memory);
        };
        let Ok(requests) = Vec::with_capacity(alloc, room as usize) else {
            return Err(Memory);
        };
        let Ok(tops) = IndexedHeap::make(alloc, room) else {
            return Err(Memory);
        };
        Ok(Objects {
            room,
            spots,
            rows,
            requests,
            tops,
            cursor: 0,
        })
    }

    /// What the table has of an object.
    fn spot(&self, object: u32) -> Spot
        ensures sorted { result.sorted ≡ grade_among self.now.rows object }
        ensures place { result.place ≡ position (nat_eq object) (ask_objects self.now.asks) }
    {
        spot_of(&self.spots, object)
    }

    /// Puts a row of a further object last. From now on the rows hold its object.
    pub fn push(&mut self, row: Row)
        requires absent { grade_among self.old.rows row.object ≡ None }
        requires room { length self.old.rows < self.old.room }
        ensures { self.new ≡ record self.old { rows = self.old.rows ++ row ∷ []; asks = held_asks row.object self.old.asks } }
    {
        let spot = self.spot(row.object);
        let held = Spot {
            sorted: Some(row.grade),
            ..spot
        };
        put_spot(&mut self.spots, row.object, held);
        self.rows.push_reserved(row);
        if let Some(place) = spot.place {
            set_top(&mut self.tops, place, None);
            self.cursor = next_due(&self.spots, &self.requests, self.cursor);
        }
    }

    /// Puts the ask of a further object last, which isn't settled yet.
    fn push_ask(&mut self, object: u32)
        requires absent { ask_of self.old.asks object ≡ None }
        requires room { length self.old.asks < self.old.room }
        ensures { self.new ≡ record self.old { asks = self.old.asks ++ new_ask object (is_some (grade_among self.old.rows object)) ∷ [] } }
    {
        let spot = self.spot(object);
        let asked = Spot {
            place: Some(self.requests.len() as u32),
            ..spot
        };
        put_spot(&mut self.spots, object, asked);
        self.requests.push_reserved(Request {
            object,
            settling: None,
        });
        self.cursor = next_due(&self.spots, &self.requests, self.cursor);
    }

    /// Adds the ask of an object where there is none. It isn't settled yet.
    pub fn add(&mut self, object: u32)
        requires { ask_of self.old.asks object ≡ None → length self.old.asks < self.old.room }
        ensures { self.new ≡ record self.old {
          asks = with_one_more (ask_of self.old.asks object) (new_ask object (is_some (grade_among self.old.rows object))) self.old.asks;
        } }
    {
        if self.ask(object).is_none() {
            self.push_ask(object);
        }
    }

    /// The ask of an object settles, if there is one: its place.
    pub fn settle(&mut self, object: u32, settling: Settling) -> Option<u32>
        ensures settled { self.new ≡ record self.old { asks = settled_asks object settling self.old.asks } }
        ensures place { result ≡ position (nat_eq object) (ask_objects self.old.asks) }
    {
        let place = self.spot(object).place?;
        self.settle_at(place, object, settling);
        Some(place)
    }

    /// The ask at a place, which is of an object, settles.
    fn settle_at(&mut self, place: u32, object: u32, settling: Settling)
        requires { position (nat_eq object) (ask_objects self.old.asks) ≡ Some place }
        ensures { self.new ≡ record self.old { asks = settled_asks object settling self.old.asks } }
    {
        let request = Request {
            object,
            settling: Some(settling),
        };
        self.requests[place as usize] = request;
        let ask = standing(&self.spots, request);
        set_top(&mut self.tops, place, ask.open_grade());
        self.cursor = next_due(&self.spots, &self.requests, self.cursor);
    }

    /// How many rows there are.
    pub fn rows(&self) -> u32
        ensures rows { result ≡ length self.now.rows }
        ensures few { result ≤ self.now.room }
        ensures small { self.now.room ≤ MAX_OBJECTS }
    {
        self.rows.len() as u32
    }

    /// The row at a place from 0, or None past the end.
    pub fn row(&self, place: u32) -> Option<Row>
        ensures { result ≡ slice_get self.now.rows place }
    {
        self.rows.get(place as usize).copied()
    }

    /// The grade of an object, if a row has it.
    pub fn grade(&self, object: u32) -> Option<u32>
        ensures { result ≡ grade_among self.now.rows object }
    {
        self.spot(object).sorted
    }

    /// The last grade of the rows, or the greatest that there is without rows.
    pub fn bottom(&self) -> u32
        ensures { result ≡ last_grade top_grade self.now.rows }
    {
        match self.rows.last() {
            Some(row) => row.grade,
            None => TOP_GRADE,
        }
    }

    /// How many asks there are.
    pub fn asks(&self) -> u32
        ensures asks { result ≡ length self.now.asks }
        ensures few { result ≤ self.now.room }
        ensures small { self.now.room ≤ MAX_OBJECTS }
    {
        self.requests.len() as u32
    }

    /// The ask at a place, None past the end.
    fn ask_at(&self, place: u32) -> Option<Ask>
        ensures { result ≡ slice_get self.now.asks place }
    {
        match self.requests.get(place as usize) {
            Some(request) => Some(standing(&self.spots, *request)),
            None => None,
        }
    }

    /// The ask of an object, if there is one.
    pub fn ask(&self, object: u32) -> Option<Ask>
        ensures { result ≡ ask_of self.now.asks object }
    {
        match self.spot(object).place {
            Some(place) => self.ask_at(place),
            None => None,
        }
    }

    /// The first ask that is due, in the order of asking.
    pub fn first_due(&self) -> Option<Ask>
        ensures { result ≡ first_due self.now.asks }
    {
        self.ask_at(self.cursor)
    }

    /// The first good grade, in the order of asking, that the rows don't hold and that is above one.
    ///
    /// *Cost*: constant where there is none, else what there are asks.
    pub fn first_above(&self, bottom: u32) -> Option<Row>
        ensures { result ≡ first_above bottom self.now.asks }
    {
        let top = self.tops.greatest()?;
        if top.rank <= bottom {
            return None;
        }
        first_open(&self.spots, &self.requests, bottom)
    }
}
