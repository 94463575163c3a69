// Values go into the slots of a table, and come out of them.
ghost use Rattle.std.specs.Prelude.{◌≡◌, ◌≤◌, [], List, Some, map, vec_len, vec_capacity};

// Moves all values into slots, for which there is room, in their order.
pub fn fill<V>(values: &mut Vec<V>, slots: &mut Vec<Option<V>>)
    requires none { slots.old.items ≡ [] }
    requires room { vec_len values.old ≤ vec_capacity slots.old }
    ensures filled { slots.new.items ≡ map Some values.old.items }
    ensures emptied { values.new.items ≡ [] }
    ensures room { vec_capacity values.new ≡ vec_capacity values.old }
{
    values.reverse();
    while let Some(value) = values.pop() {
        slots.push_reserved(Some(value));
    }
}

// Moves all values out of slots again, in their order.
pub fn empty<V: Drop>(mut slots: Vec<Option<V>>, values: &mut Vec<V>)
    requires full { (all : List V) × (slots.items ≡ map Some all) }
    requires none { values.old.items ≡ [] }
    requires room { vec_len slots ≤ vec_capacity values.old }
    ensures emptied { slots.items ≡ map Some values.new.items }
    ensures room { vec_capacity values.new ≡ vec_capacity values.old }
{
    slots.reverse();
    while let Some(slot) = slots.pop() {
        match slot {
            Some(value) => values.push_reserved(value),
            None => unreachable!(),
        }
    }
}
