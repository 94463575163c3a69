//! Made tables.

ghost use Rattle.std.specs.Prelude.{◌≡◌, ◌<◌, ◌^◌, length, OnOk, IfOk};
ghost use Rattle.std.specs.List.{range_with_len};
ghost use Rattle.ranked_list.specs.Table.{IsTable};
ghost use Rattle.topk_theory.specs.Adversary.{by_grade, graded};
ghost use Rattle.made_inputs.specs.Made.{state_after, grade_of, made_table};

use super::Memory;
use super::generator::Generator;
use ranked_list::{MemList, Row};
use std::alloc::Global;
use topk_theory::sort_by_grade;

/// The rows of the objects 1 to `count`, with the next grades of the generator.
fn next_rows(alloc: Global, generator: &mut Generator, count: u32) -> Result<Vec<Row>, Memory>
    ensures rows { IfOk result (λ rows. rows.items ≡ graded (λ object. grade_of (state_after generator.old.state object)) (range_with_len 1 count)) }
    ensures state { OnOk result (generator.new.state ≡ state_after generator.old.state count) }
{
    let Ok(mut rows) = Vec::with_capacity(alloc, count as usize) else {
        return Err(Memory);
    };
    for place in 0..count {
        let grade = generator.next_grade();
        let object = place + 1;
        let Ok(()) = rows.push(Row { object, grade }) else {
            return Err(Memory);
        };
    }
    Ok(rows)
}

/// The list of these rows.
fn list_of(alloc: Global, rows: &[Row]) -> Result<MemList, Memory>
    requires { length rows.now < 2 ^ 32 }
    ensures { IfOk result (λ list. list ≡ rows.now) }
{
    let mut list = MemList::make(alloc);
    for row in rows {
        let Ok(()) = list.push(*row) else {
            return Err(Memory);
        };
    }
    Ok(list)
}

/// The next list of the generator.
fn next_list(alloc: Global, generator: &mut Generator, count: u32) -> Result<MemList, Memory>
    ensures list { IfOk result (λ list. list ≡ by_grade (graded (λ object. grade_of (state_after generator.old.state object)) (range_with_len 1 count))) }
    ensures state { OnOk result (generator.new.state ≡ state_after generator.old.state count) }
{
    let mut rows = next_rows(alloc, generator, count)?;
    sort_by_grade(&mut rows);
    list_of(alloc, &rows)
}

/// Makes a table of so many lists over the objects 1 to `count` from a number. The same number, count
/// and number of lists give the same table.
///
/// Each object of the first list in turn, then each of the second and so on, gets the grade of the next
/// state of a generator that begins at `start`. Each list is then ordered by grade falling, and among
/// equal grades by the object's number rising.
///
/// *Cost*: a step of the generator for each row; for each list a sort in place and a copy of its rows.
pub fn make_table(alloc: Global, start: u64, count: u32, lists: u8) -> Result<Vec<MemList>, Memory>
    ensures made { IfOk result (λ table. table.items ≡ made_table start count lists) }
    ensures table { IfOk result (λ table. IsTable count table.items) }
{
    let mut generator = Generator::from_state(start);
    let Ok(mut table) = Vec::with_capacity(alloc, usize::from(lists)) else {
        return Err(Memory);
    };
    for _ in 0..lists {
        let list = next_list(alloc, &mut generator, count)?;
        let Ok(()) = table.push(list) else {
            return Err(Memory);
        };
    }
    Ok(table)
}
