//! Which sources of a catalog the query lines want.

ghost use Rattle.std.specs.Prelude.{◌≡◌, ◌<◌, ℕ, List, false, All, IfOk, MatchOption, length, map, Contains, Some};
ghost use Rattle.query_admission.specs.Admission.{IsReadAs};
ghost use Rattle.catalog_open.specs.Views.{entry_named};
ghost use Rattle.catalog_open.specs.Wanted.{AreMarked, AreRead, MarksMore, Wants};

use super::Memory;
use catalog_text::Catalog;
use query_admission::ReadLine;
use query_text::Names;
use std::alloc::Global;

/// Marks the sources of the catalog that lines want which were read: those of the lists that a line names which no cause refuses before
/// its lists are opened.
///
/// *Cost*: one `find` for each list of each line.
pub fn mark_wanted(alloc: Global, catalog: &Catalog, read: &[ReadLine]) -> Result<Vec<bool>, Memory>
    ensures { (lines : List (List ℕ)) → AreRead lines read.now → IfOk result (λ marks. AreMarked catalog.now lines marks.items) }
{
    let Ok(mut marks) = vec![in alloc; false; catalog.len() as usize] else {
        return Err(Memory);
    };
    for line in read {
        mark_line(alloc, catalog, line, &mut marks)?;
    }
    Ok(marks)
}

/// Marks the sources that a line wants beside those that are marked: those of its lists, where the catalog has all of them.
fn mark_line(
    alloc: Global,
    catalog: &Catalog,
    line: &ReadLine,
    marks: &mut Vec<bool>,
) -> Result<(), Memory>
    requires { length marks.old.items ≡ length catalog.now }
    ensures many { length marks.new.items ≡ length catalog.now }
    ensures marks { (number : ℕ) → (bytes : List ℕ) → IsReadAs number bytes line.now
        → IfOk result (λ _. MarksMore (Wants catalog.now number bytes) marks.old.items marks.new.items) }
{
    let ReadLine::Query(query) = line else {
        return Ok(());
    };
    let found = places_of(alloc, catalog, &query.names)?;
    let Some(places) = found else {
        return Ok(());
    };
    mark_places(&places, marks);
    Ok(())
}

/// Where the lists of these names stand in the catalog, or None where it hasn't one of them.
fn places_of(alloc: Global, catalog: &Catalog, names: &Names) -> Result<Option<Vec<u32>>, Memory>
    ensures { IfOk result (λ found. MatchOption found
        ((places : List ℕ) → ¬ (map (entry_named catalog.now) names.now ≡ map Some places))
        (λ places. map (entry_named catalog.now) names.now ≡ map Some places.items)) }
{
    let mut places = Vec::new(alloc);
    for name in names.iter() {
        let Some(place) = catalog.find(name) else {
            return Ok(None);
        };
        let Ok(()) = places.push(place) else {
            return Err(Memory);
        };
    }
    Ok(Some(places))
}

/// Marks these places beside those that are marked.
fn mark_places(places: &[u32], marks: &mut Vec<bool>)
    requires { All (λ place. place < length marks.old.items) places.now }
    ensures many { length marks.new.items ≡ length marks.old.items }
    ensures marks { MarksMore (Contains places.now) marks.old.items marks.new.items }
{
    for place in places {
        marks[*place as usize] = true;
    }
}
