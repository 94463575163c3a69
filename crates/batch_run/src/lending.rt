//! Feeders, which stand in the slots of their sources while a run goes on.

ghost use Rattle.std.specs.Prelude.{◌≡◌, ◌≤◌, [], true, None, All, length, is_some, vec_len, vec_capacity};
ghost use Rattle.batch_run.specs.Slots.{AreLent, AreTakenBack};

use fetcher::{Fetched, Slot};
use source_api::Source;
use source_pool::Feeder;

/// Puts each feeder into the slot of its source, of which nothing is fetched yet. The slots are those of the sources in their order.
pub fn lend<S: Source>(feeders: &mut Vec<Feeder>, slots: &mut Vec<Slot<S>>)
    requires { vec_len feeders.old ≡ length slots.old.items }
    ensures lent { AreLent S.list S.counts S.calls S.at_hand feeders.old.items slots.old.items slots.new.items }
    ensures none { feeders.new.items ≡ [] }
    ensures room { vec_capacity feeders.new ≡ vec_capacity feeders.old }
{
    while let Some(feeder) = feeders.pop() {
        let place = feeders.len();
        let slot = &mut slots[place];
        slot.feeder = Some(feeder);
        slot.fetched = Fetched { rows: 0, grades: 0 };
    }
}

/// Takes the feeders back out of the slots, in the order of the sources.
pub fn take_back<S: Source>(slots: &mut Vec<Slot<S>>, feeders: &mut Vec<Feeder>)
    requires none { feeders.old.items ≡ [] }
    requires room { length slots.old.items ≤ vec_capacity feeders.old }
    requires full { All (λ slot. is_some slot.feeder ≡ true) slots.old.items }
    ensures back { AreTakenBack S.list S.counts S.calls S.at_hand slots.old.items feeders.new.items slots.new.items }
    ensures empty { All (λ slot. slot.feeder ≡ None) slots.new.items }
{
    for place in 0..slots.len() {
        let feeder = slots[place].feeder.take().unwrap();
        feeders.push_reserved(feeder);
    }
}
