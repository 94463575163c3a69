//! A journal that one pass writes, and that others read, all at once.

use super::runs::{Outcome, bench, join_late, split_to_the_last_part};
use std::test::Fail;
use std::thread;

const ENTRIES: u32 = 50;

const READERS: u32 = 4;

const TURNS: u32 = 30;

fn are_in_order(entries: &[u32]) -> bool {
    for (place, entry) in entries.iter().enumerate() {
        if *entry as usize != place {
            return false;
        }
    }
    true
}

/// Each reader asked for the object once.
fn asked_once_each(asks: &[u32], object: u32) -> bool {
    asks.iter().filter(|ask| **ask == object).count() == READERS as usize
}

/// The log has what the writer wrote, and the asks are those of all turns of all readers.
fn is_whole(outcome: &Outcome) -> bool {
    let journal = &outcome.journal;
    for object in 0..TURNS {
        if !asked_once_each(journal.asks.as_slice(), object) {
            return false;
        }
    }
    journal.entries.len() == ENTRIES as usize && are_in_order(journal.entries.as_slice())
}

#[test]
fn no_turn_is_lost(rt: HostRuntime) -> Result<(), Fail> {
    let alloc = rt.alloc();
    let (one, other) = thread::join(
        &rt,
        || bench(&rt, alloc, READERS, ENTRIES, TURNS),
        || bench(&rt, alloc, READERS, ENTRIES, TURNS),
    );
    for outcome in [one, other] {
        let Some(outcome) = outcome else {
            panic!(rt; "there was memory");
        };
        let whole = is_whole(&outcome);
        let figures = (outcome.turns, outcome.journal.mark, outcome.fell);
        drop(outcome);
        assert!(rt; whole);
        assert_eq!(rt; figures, (READERS * TURNS, TURNS - 1, false));
    }
    Ok(())
}

#[test]
fn splits_to_the_last_part(rt: HostRuntime) -> Result<(), Fail> {
    let Some(journal) = split_to_the_last_part(&rt, rt.alloc()) else {
        panic!(rt; "there was memory");
    };
    assert_eq!(rt; journal.entries.as_slice(), [7].as_slice());
    assert_eq!(rt; journal.asks.as_slice(), [5].as_slice());
    Ok(())
}

#[test]
fn a_join_keeps_the_longer(rt: HostRuntime) -> Result<(), Fail> {
    assert_eq!(rt; join_late(&rt, rt.alloc()), Some((1, 2)));
    Ok(())
}
