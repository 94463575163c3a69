//! The slots of the sources of a made table.

ghost use Rattle.std.specs.Prelude.{◌≡◌, [], All, IfOk, OnOk, map};
ghost use Rattle.made_inputs.specs.Made.{made_table};
ghost use Rattle.bulk_run.specs.Held.{fresh_slot, AreSmall};

use super::Memory;
use super::made_source::MadeSource;
use fetcher::Slot;
use made_inputs::make_table;
use ranked_list::MemList;
use std::alloc::Global;

/// A slot with a source for each list of the table that is made from a number: so many lists, each of so many objects.
pub fn table_slots(
    alloc: Global,
    start: u64,
    count: u32,
    lists: u8,
) -> Result<Vec<Slot<MadeSource>>, Memory>
    ensures { IfOk result (λ slots. slots.items ≡ map fresh_slot (made_table start count lists)) }
{
    let Ok(table) = make_table(alloc, start, count, lists) else {
        return Err(Memory);
    };
    slots_of(alloc, &table)
}

/// Puts a slot with a source for each of these lists behind none.
fn put_slots(
    alloc: Global,
    table: &[MemList],
    slots: &mut Vec<Slot<MadeSource>>,
) -> Result<(), Memory>
    requires small { All AreSmall table.now }
    requires none { slots.old.items ≡ [] }
    ensures { OnOk result (slots.new.items ≡ map fresh_slot table.now) }
{
    for place in 0..table.len() {
        let source = MadeSource::make(alloc, &table[place])?;
        slots.push(Slot::make(source))?;
    }
    Ok(())
}

/// A slot with a source for each of these lists.
fn slots_of(alloc: Global, table: &[MemList]) -> Result<Vec<Slot<MadeSource>>, Memory>
    requires { All AreSmall table.now }
    ensures { IfOk result (λ slots. slots.items ≡ map fresh_slot table.now) }
{
    let mut slots = Vec::new(alloc);
    let Ok(()) = put_slots(alloc, table, &mut slots) else {
        drop(slots);
        return Err(Memory);
    };
    Ok(slots)
}

/// Lets slots go, with their sources.
pub fn let_go(slots: Vec<Slot<MadeSource>>) {
    drop(slots);
}
