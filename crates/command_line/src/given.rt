//! The words that a process was given.

ghost use Rattle.std.specs.Prelude.{◌≡◌, ◌≤◌, ◌<◌, IfOk, IfSome, length, vec_len};

use super::fault::WordsFault;
use super::words::Words;
use std::alloc::Global;
use std::env::{Env, FillError};
use std::str;

/// How many bytes of a word there is room for at first. For a longer word the room is doubled.
const ROOM: usize = 256;

/// The words after the program's own name, which isn't looked at. BadWords means that one of them
/// isn't UTF-8.
///
/// What the words are is the process's own: no clause says it.
pub fn read_words<E: Env>(env: &E, alloc: Global) -> Result<Words, WordsFault> {
    let mut words = Words::make(alloc);
    let mut room = Vec::new(alloc);
    let read = read_each(env, &mut room, &mut words);
    drop(room);
    match read {
        Ok(()) => Ok(words),
        Err(fault) => {
            drop(words);
            Err(fault)
        }
    }
}

/// Puts the words one after another, through a room for the bytes of each.
fn read_each<E: Env>(env: &E, room: &mut Vec<u8>, words: &mut Words) -> Result<(), WordsFault>
    requires { length words.old ≡ 0 }
{
    for place in 1..u32::MAX {
        let Some(count) = read_word(env, room, place as usize)? else {
            return Ok(());
        };
        let Ok(word) = str::from_utf8(&room[..count]) else {
            return Err(WordsFault::BadWords);
        };
        let Ok(()) = words.push(word) else {
            return Err(WordsFault::Memory);
        };
    }
    Err(WordsFault::Memory)
}

/// Reads the word at a place into the room, which grows as far as it needs, and says how many bytes the
/// word has. None is past the last word.
fn read_word<E: Env>(env: &E, room: &mut Vec<u8>, place: usize) -> Result<Option<usize>, WordsFault>
    ensures { IfOk result (λ found. IfSome found (λ count. count ≤ vec_len room.new)) }
{
    for _ in 0..usize::BITS {
        match env.arg(place, room.as_mut_slice()) {
            Ok(count) => return Ok(Some(count)),
            Err(FillError::NotPresent) => return Ok(None),
            Err(FillError::TooLong) => {
                let more = room.len().saturating_mul(2).max(ROOM);
                if room.resize(more, 0).is_err() {
                    return Err(WordsFault::Memory);
                }
            }
        }
    }
    Err(WordsFault::Memory)
}
