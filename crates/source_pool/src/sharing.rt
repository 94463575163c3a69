//! Splitting and joining what passes hold of several sources.

ghost use Rattle.std.specs.Prelude.{◌≡◌, ◌≤◌, [], All, IfOk, vec_len, vec_capacity};
ghost use Rattle.source_pool.specs.Passes.{IsPassOf};
ghost use Rattle.source_pool.specs.Remembering.{nothing};
ghost use Rattle.source_pool.specs.Sharing.{MaySplit, IsSplit, IsJoined};

use super::hold::Hold;
use super::hold_sharing::{join_one, split_one};
use super::remembered::Remembered;
use source_state::{Memory, SourceState};
use std::alloc::Global;
use turn_lock::TurnLock;

/// Nothing remembered of as many sources as are held, from the last to the first, with the room that is held of each.
pub fn make_all(alloc: Global, holds: &Vec<Hold>) -> Result<Vec<Remembered>, Memory>
    ensures size { IfOk result (λ made. vec_len made ≡ vec_len holds.now) }
    ensures empty { IfOk result (λ made. All (λ one. one ≡ nothing) made.items) }
{
    let Ok(mut made) = Vec::with_capacity(alloc, holds.len()) else {
        return Err(Memory);
    };
    while made.len() < holds.len() {
        let place = holds.len() - 1 - made.len();
        let one = Remembered::make(alloc, holds[place].remembered.grades.room())?;
        made.push_reserved(one);
    }
    Ok(made)
}

/// Splits one part of each source off, into a vector with room for it.
pub fn split_all(
    locks: &Vec<TurnLock<SourceState>>,
    holds: &mut Vec<Hold>,
    made: &mut Vec<Remembered>,
    given: &mut Vec<Hold>,
)
    requires own { IsPassOf locks.now.items holds.old.items }
    requires parts { MaySplit locks.now.items holds.old.items }
    requires made { (vec_len made.old ≡ vec_len locks.now) × All (λ one. one ≡ nothing) made.old.items }
    requires room { (given.old.items ≡ []) × (vec_len locks.now ≤ vec_capacity given.old) }
    ensures kept { IsPassOf locks.now.items holds.new.items }
    ensures given { IsPassOf locks.now.items given.new.items }
    ensures split { IsSplit locks.now.items holds.old.items holds.new.items given.new.items }
{
    for place in 0..locks.len() {
        let remembered = made.pop().unwrap();
        let new = split_one(&locks[place], &mut holds[place], remembered);
        given.push_reserved(new);
    }
}

/// Joins what another pass holds, of each source.
pub fn join_all(locks: &Vec<TurnLock<SourceState>>, holds: &mut Vec<Hold>, others: &mut Vec<Hold>)
    requires own { IsPassOf locks.now.items holds.old.items }
    requires other { IsPassOf locks.now.items others.old.items }
    ensures own { IsPassOf locks.now.items holds.new.items }
    ensures joined { IsJoined locks.now.items holds.old.items others.old.items holds.new.items }
{
    while let Some(other) = others.pop() {
        let place = others.len();
        join_one(&locks[place], &mut holds[place], other);
    }
}
