//! The table on which an answer is beaten.

ghost use Rattle.std.specs.Prelude.{◌≡◌, ◌≢◌, ◌+◌, ◌<◌, ◌^◌, ◌++◌, ◌&&◌, [], ◌∷◌, ℕ, not, filter, length, nat_lt, AllPairs, Contains, IfOk, OnOk, if◌then◌else◌};
ghost use Rattle.ranked_list.specs.declared.row.Row.{Row};
ghost use Rattle.ranked_list.specs.Table.{objects};
ghost use Rattle.topk_theory.specs.Transcript.{IsTame, seen_objects, sorted_rows};
ghost use Rattle.topk_theory.specs.Adversary.{object_set, chosen, against, filled, graded, unread, by_grade};
ghost use Rattle.access_log.specs.Log.{IsConsistent, IsWithinLimits};
ghost use Rattle.topk_theory.specs.Fixes.{IsObjectSet};
ghost use Rattle.cert_judge.specs.Objects.{has};
ghost use Rattle.cert_judge.specs.CounterTable.{IsCounterTable};

use super::objects::Objects;
use access_log::{Access, Transcript};
use ranked_list::{MemList, Row};
use std::alloc::Global;
use topk_base::Memory;
use topk_theory::sort_by_grade;

/// Adds an id that wasn't seen, while there are fewer objects than the count.
fn add_unseen(transcript: &Transcript, found: &mut Vec<u32>, object: u32) -> Result<(), Memory>
    ensures { OnOk result (found.new.items ≡ (if nat_lt (length found.old.items) transcript.now.count && not (has object (seen_objects transcript.now.accesses))
        then found.old.items ++ object ∷ [] else found.old.items)) }
{
    let has_room = found.len() < transcript.count() as usize;
    if has_room && !transcript.is_seen(object) {
        found.push(object)?;
    }
    Ok(())
}

/// The objects that sorted accesses gave, in the order of first sight.
fn seen_objects(alloc: Global, transcript: &Transcript) -> Result<Vec<u32>, Memory>
    ensures { IfOk result (λ found. found.items ≡ seen_objects transcript.now.accesses) }
{
    let mut found = Vec::new(alloc);
    for place in 0..transcript.seen() {
        let object = transcript.object_at(place);
        found.push(object)?;
    }
    Ok(found)
}

/// The objects that sorted accesses gave, and the smallest other ids, as many as a list has in all.
fn objects_of(alloc: Global, transcript: &Transcript) -> Result<Vec<u32>, Memory>
    ensures { IfOk result (λ found. found.items ≡ object_set transcript.now.count (seen_objects transcript.now.accesses)) }
{
    let mut found = seen_objects(alloc, transcript)?;
    for object in 0..transcript.count() {
        add_unseen(transcript, &mut found, object)?;
    }
    Ok(found)
}

/// Adds the row that an access gave, where it is a sorted access of the list.
fn add_read(rows: &mut MemList, list: u8, access: Access) -> Result<(), Memory>
    requires { length rows.old + 1 < 2 ^ 32 }
    ensures { OnOk result (rows.new ≡ rows.old ++ sorted_rows list (access ∷ [])) }
{
    let Access::Sorted {
        list: read,
        object,
        grade,
    } = access
    else {
        return Ok(());
    };
    if read != list {
        return Ok(());
    }
    rows.push(Row { object, grade })?;
    Ok(())
}

/// The rows that sorted accesses gave from a list.
fn read_rows(alloc: Global, transcript: &Transcript, list: u8) -> Result<MemList, Memory>
    requires list { list < transcript.now.lists }
    requires limits { IsWithinLimits transcript.now.lists transcript.now.count }
    requires agrees { IsConsistent transcript.now }
    ensures { IfOk result (λ rows. rows ≡ sorted_rows list transcript.now.accesses) }
{
    let mut rows = MemList::make(alloc);
    for access in transcript.iter() {
        add_read(&mut rows, list, *access)?;
    }
    Ok(rows)
}

/// The objects of rows.
fn objects_read(alloc: Global, rows: &MemList) -> Result<Objects, Memory>
    ensures { IfOk result (λ read. (object : ℕ) → has object read ≡ has object (objects rows.now)) }
{
    let mut read = Objects::make(alloc);
    for row in rows.iter() {
        read.add(row.object)?;
    }
    Ok(read)
}

/// The grade in a list that is chosen for an object where it isn't known: 0 for the object inside, and the
/// list's bottom for every other one.
fn unknown_grade(transcript: &Transcript, list: u8, inside: u32, object: u32) -> u32
    requires { list < transcript.now.lists }
    ensures { result ≡ against inside transcript.now.accesses list object }
{
    if object == inside {
        0
    } else {
        transcript.bottom(list)
    }
}

/// The grade of an object in a list: the known one, or else the chosen one.
fn chosen_grade(transcript: &Transcript, list: u8, inside: u32, object: u32) -> u32
    requires { list < transcript.now.lists }
    ensures { result ≡ chosen (against inside transcript.now.accesses) transcript.now.accesses list object }
{
    let unknown = unknown_grade(transcript, list, inside, object);
    let known = transcript.known(object);
    let grade = known[list as usize];
    grade.unwrap_or(unknown)
}

/// Adds the row of an object, unless the object was read from the list.
fn add_unread(
    transcript: &Transcript,
    list: u8,
    inside: u32,
    read: &Objects,
    rows: &mut Vec<Row>,
    object: u32,
) -> Result<(), Memory>
    requires { list < transcript.now.lists }
    ensures { OnOk result (rows.new.items ≡ (if has object read.now then rows.old.items
        else rows.old.items ++ record { object = object; grade = chosen (against inside transcript.now.accesses) transcript.now.accesses list object } ∷ [])) }
{
    if read.has(object) {
        return Ok(());
    }
    let grade = chosen_grade(transcript, list, inside, object);
    rows.push(Row { object, grade })?;
    Ok(())
}

/// The rows of the objects that weren't read from a list.
fn unread_rows(
    alloc: Global,
    transcript: &Transcript,
    list: u8,
    inside: u32,
    objects: &[u32],
    read: &Objects,
) -> Result<Vec<Row>, Memory>
    requires { list < transcript.now.lists }
    ensures { IfOk result (λ rows. rows.items ≡ graded (chosen (against inside transcript.now.accesses) transcript.now.accesses list)
        (filter (λ object. not (has object read.now)) objects.now)) }
{
    let mut rows = Vec::new(alloc);
    for object in objects {
        add_unread(transcript, list, inside, read, &mut rows, *object)?;
    }
    Ok(rows)
}

/// Adds rows at the end.
fn add_rows(rows: &mut MemList, more: &[Row]) -> Result<(), Memory>
    requires { length rows.old + length more.now < 2 ^ 32 }
    ensures { OnOk result (rows.new ≡ rows.old ++ more.now) }
{
    for row in more {
        rows.push(*row)?;
    }
    Ok(())
}

/// The rows of the objects that weren't read from a list, by grade falling, then by id rising.
fn rest_rows(
    alloc: Global,
    transcript: &Transcript,
    list: u8,
    inside: u32,
    objects: &[u32],
    rows: &MemList,
) -> Result<Vec<Row>, Memory>
    requires list { list < transcript.now.lists }
    requires apart { AllPairs (λ (one : ℕ) (other : ℕ). one ≢ other) objects.now }
    ensures { IfOk result (λ rest. rest.items ≡ by_grade (graded (chosen (against inside transcript.now.accesses) transcript.now.accesses list)
        (unread rows.now objects.now))) }
{
    let read = objects_read(alloc, rows)?;
    let mut rest = unread_rows(alloc, transcript, list, inside, objects, &read)?;
    sort_by_grade(&mut rest);
    Ok(rest)
}

/// A list of the table against an object: the rows that were read from it, and below them the other objects by
/// grade falling, then by id rising.
fn completed_list(
    alloc: Global,
    transcript: &Transcript,
    list: u8,
    inside: u32,
    objects: &[u32],
) -> Result<MemList, Memory>
    requires list { list < transcript.now.lists }
    requires limits { IsWithinLimits transcript.now.lists transcript.now.count }
    requires agrees { IsConsistent transcript.now }
    requires objects { IsObjectSet transcript.now.count objects.now }
    ensures { IfOk result (λ rows. rows ≡ filled (chosen (against inside transcript.now.accesses) transcript.now.accesses list)
        objects.now (sorted_rows list transcript.now.accesses)) }
{
    let mut rows = read_rows(alloc, transcript, list)?;
    let rest = rest_rows(alloc, transcript, list, inside, objects, &rows)?;
    add_rows(&mut rows, &rest)?;
    Ok(rows)
}

/// A table that agrees with the transcript, on which an object has its low and every other object its high.
///
/// The transcript is tame, and a sorted access gave the object. Unknown grades of the object are 0, and all
/// others the bottom of their list. The unseen objects are the smallest ids that the transcript doesn't name.
/// Each list is its rows that were read, and then the rest by grade falling, then by id rising.
///
/// *Cost*: for each list one pass over the accesses, a look-up for each object, and a sort of the objects that it
/// hasn't given.
pub fn counter_table(
    alloc: Global,
    transcript: &Transcript,
    inside: u32,
) -> Result<Vec<MemList>, Memory>
    requires tame { IsTame transcript.now.accesses }
    requires seen { Contains (seen_objects transcript.now.accesses) inside }
    ensures { IfOk result (λ lists. IsCounterTable transcript.now inside lists.items) }
{
    let objects = objects_of(alloc, transcript)?;
    let mut lists = Vec::new(alloc);
    for list in 0..transcript.lists() {
        let rows = completed_list(alloc, transcript, list, inside, &objects)?;
        lists.push(rows)?;
    }
    Ok(lists)
}
