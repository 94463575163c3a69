//! The reading of a bundle's lists, row by row.

ghost use Rattle.std.specs.Prelude.{◌≡◌, ◌==◌, ◌||◌, ◌&&◌, ◌∷◌, [], ℕ, List, not, is_some, None, IsTrue, IfOk, OnOk};
ghost use Rattle.std.specs.List.{list_any};
ghost use Rattle.std.specs.Str.{bytes_eq};
ghost use Rattle.bundle_text.specs.Gathering.{IsCounted, TakesLines};
ghost use Rattle.bundle_text.specs.Reading.{takes_row, with_row, takes_list, with_list, takes_part, with_part, part_of, part_read, query_part, room, is_whole, is_taken, with_query, first_front};
ghost use Rattle.bundle_text.specs.Tracking.{front_of, has_number, IsTracked};
ghost use Rattle.bundle_text.specs.Bundle.{content};

use super::bundle::{Bundle, BundleFault};
use super::line::Line;
use super::marks::mark;
use containers::ObjectMap;
use ranked_list::{MemList, Memory, Row, check_next};
use std::alloc::Global;
use std::mem::replace;
use topk_base::{MAX_BUNDLE_LISTS, MAX_OBJECTS};

/// The lists of a bundle so far, of which the last is open.
#[derive(Drop)]
pub(crate) struct Reader {
    /// The names of the lists that are whole.
    names: Vec<Vec<u8>>,
    /// The lists that are whole.
    closed: Vec<MemList>,
    /// The name of the open list.
    name: Vec<u8>,
    /// The rows of the open list so far.
    rows: MemList,
    /// The last of these rows.
    last: Option<Row>,
    /// The number of the open list, from 0.
    number: u8,
    /// For each object the number of the last list that has it.
    given: ObjectMap<u8>,
}

impl Reader {
    /// A reader whose first list has just begun.
    pub(crate) fn open(alloc: Global, name: &[u8]) -> Result<Reader, Memory>
        ensures { IfOk result (λ reader. IsTracked reader × (front_of reader ≡ first_front name.now)) }
    {
        Ok(Reader {
            names: Vec::new(alloc),
            closed: Vec::new(alloc),
            name: Vec::from_slice(alloc, name)?,
            rows: MemList::make(alloc),
            last: None,
            number: 0,
            given: ObjectMap::make(alloc),
        })
    }

    /// Puts a row at the end of the open list, if it may come there, and says whether it did. Where it didn't, the
    /// reader is of no more use.
    pub(crate) fn add_row(&mut self, row: Row) -> Result<bool, Memory>
        requires { IsTracked self.old }
        ensures tells { IfOk result (λ took. took ≡ takes_row (front_of self.old) row) }
        ensures adds { IfOk result (λ took. IsTrue took → IsTracked self.new × (front_of self.new ≡ with_row (front_of self.old) row)) }
    {
        if self.rows.len() >= self.room() || check_next(0, self.last, row).is_err() {
            return Ok(false);
        }
        let before = mark(&mut self.given, row.object, self.number)?;
        if !may_have(before, self.number) {
            return Ok(false);
        }
        self.rows.push(row)?;
        self.last = Some(row);
        Ok(true)
    }

    /// Begins the next list, if it may come there, and says whether it did.
    pub(crate) fn begin_list(&mut self, alloc: Global, name: &[u8]) -> Result<bool, Memory>
        requires { IsTracked self.old }
        ensures tells { IfOk result (λ took. took ≡ takes_list (front_of self.old) name.now) }
        ensures begins { IfOk result (λ took. IsTrue took → IsTracked self.new × (front_of self.new ≡ with_list (front_of self.old) name.now)) }
    {
        if !self.is_whole() || self.closed.len() + 1 >= MAX_BUNDLE_LISTS || self.is_taken(name) {
            return Ok(false);
        }
        self.close(alloc, name)?;
        self.number += 1;
        Ok(true)
    }

    /// Takes one more line into the lists, if it may come there, and says whether it did.
    pub(crate) fn take_line(&mut self, alloc: Global, line: Line) -> Result<bool, Memory>
        requires { IsTracked self.old }
        ensures tells { IfOk result (λ took. took ≡ takes_part (front_of self.old) (part_read line.entry)) }
        ensures takes { IfOk result (λ took. IsTrue took → IsTracked self.new × (front_of self.new ≡ with_part (front_of self.old) (part_read line.entry))) }
    {
        match line {
            Line::Heading(name) => self.begin_list(alloc, name),
            Line::Entry(row) => self.add_row(row),
            Line::Query(_) | Line::Other => Ok(false),
        }
    }

    /// Takes in the line with this number, if it may come there, and gives the next number. The line is no query.
    pub(crate) fn take_numbered(
        &mut self,
        alloc: Global,
        line: Line,
        number: u64,
    ) -> Result<u64, BundleFault>
        requires tracked { IsTracked self.old }
        requires counted { IsCounted (front_of self.old) number }
        requires other { (text : List ℕ) → part_read line ≡ query_part text → ⊥ }
        ensures { (text : List ℕ) → part_read line.entry ≡ part_of text
            → TakesLines (text ∷ []) (front_of self.old) number self.new result }
    {
        // Serves the prover alone: as both are small, one can be added to the number.
        let _lists = self.number;
        let _rows = self.rows.len();
        let Ok(took) = self.take_line(alloc, line) else {
            return Err(BundleFault::Memory);
        };
        if !took {
            return Err(BundleFault::BadBundle { line: number });
        }
        Ok(number + 1)
    }

    /// Puts the open list to the whole ones, and opens one of this name, to which no object belongs yet. The number stays.
    fn close(&mut self, alloc: Global, name: &[u8]) -> Result<(), Memory>
        ensures front { OnOk result (front_of self.new ≡ with_list (front_of self.old) name.now) }
        ensures last { OnOk result (self.new.last ≡ None) }
        ensures number { OnOk result (self.new.number ≡ self.old.number) }
        ensures given { OnOk result (self.new.given ≡ self.old.given) }
    {
        self.names.reserve(1)?;
        self.closed.reserve(1)?;
        let name = Vec::from_slice(alloc, name)?;
        self.names.push_reserved(replace(&mut self.name, name));
        self.closed
            .push_reserved(replace(&mut self.rows, MemList::make(alloc)));
        self.last = None;
        Ok(())
    }

    /// How many rows the open list may have.
    fn room(&self) -> u32
        ensures { result ≡ room self.now.closed.items }
    {
        match self.closed.first() {
            Some(first) => first.len(),
            None => MAX_OBJECTS,
        }
    }

    /// Whether the open list may end.
    pub(crate) fn is_whole(&self) -> bool
        ensures { result ≡ is_whole (front_of self.now) }
    {
        match self.closed.first() {
            Some(first) => self.rows.len() == first.len(),
            None => !self.rows.is_empty(),
        }
    }

    /// Whether a list has this name.
    fn is_taken(&self, name: &[u8]) -> bool
        ensures { result ≡ is_taken (front_of self.now) name.now }
    {
        has_name(&self.names, name) || self.name.as_slice() == name
    }

    /// The bundle of these lists and a query.
    pub(crate) fn end(mut self, alloc: Global, query: &[u8]) -> Result<Bundle, Memory>
        ensures { IfOk result (λ bundle. content bundle ≡ with_query (front_of self) query.now) }
    {
        let bundle = self.take_bundle(alloc, query);
        drop(self);
        bundle
    }

    /// Takes the bundle of these lists and a query out of the reader, which is let go then.
    fn take_bundle(&mut self, alloc: Global, query: &[u8]) -> Result<Bundle, Memory>
        ensures { IfOk result (λ bundle. content bundle ≡ with_query (front_of self.old) query.now) }
    {
        self.close(alloc, b"")?;
        let query = Vec::from_slice(alloc, query)?;
        Ok(Bundle {
            names: replace(&mut self.names, Vec::new(alloc)),
            lists: replace(&mut self.closed, Vec::new(alloc)),
            query,
        })
    }
}

/// Whether the list of this number may have an object that was last in the list of another number, or in none. The
/// first list may have any, the others those of the first, each once.
fn may_have(before: Option<u8>, number: u8) -> bool
    ensures { result ≡ ((number == 0 || is_some before) && not (has_number number before)) }
{
    match before {
        Some(before) => before != number,
        None => number == 0,
    }
}

/// Whether a name is this one.
fn is_same(other: &Vec<u8>, name: &[u8]) -> bool
    ensures { result ≡ bytes_eq other.now.items name.now }
{
    other.as_slice() == name
}

/// Whether one of the names is this one.
fn has_name(names: &[Vec<u8>], name: &[u8]) -> bool
    ensures { result ≡ list_any (λ other. bytes_eq other.items name.now) names.now }
{
    names.iter().any(|other| is_same(other, name))
}
