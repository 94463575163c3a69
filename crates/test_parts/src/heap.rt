//! Heaps row by row.

use containers::{IndexedHeap, Memory};
use std::alloc::Global;
use test_support::wrong_rows;
use topk_base::MAX_OBJECTS;

/// A change of one key: the rank that it is given, None where its rank is taken away.
type Change = (u32, Option<u32>);

/// What a heap answers after a change: the key and the rank at hand, and how many keys have a rank.
type Answer = (Option<(u32, u32)>, u32);

/// Changes of a heap of five keys, made one after another, and what it answers after each.
const FIVE: &[(Change, Answer)] = &[
    ((3, Some(5)), (Some((3, 5)), 1)),
    ((0, Some(9)), (Some((0, 9)), 2)),
    ((4, Some(7)), (Some((0, 9)), 3)),
    ((0, Some(6)), (Some((4, 7)), 3)),
    ((4, None), (Some((0, 6)), 2)),
    ((4, None), (Some((0, 6)), 2)),
    ((0, None), (Some((3, 5)), 1)),
    ((3, Some(2)), (Some((3, 2)), 1)),
    ((3, None), (None, 0)),
];

/// Changes of a heap of one key.
const ONE: &[(Change, Answer)] = &[((0, Some(0)), (Some((0, 0)), 1)), ((0, None), (None, 0))];

/// Changes one key, where there is room for it.
fn change(heap: &mut IndexedHeap<u32>, key: u32, rank: Option<u32>) {
    if key < heap.room() {
        match rank {
            Some(rank) => heap.put(key, rank),
            None => heap.remove(key),
        }
    }
}

/// What the heap has at hand.
fn answer(heap: &IndexedHeap<u32>) -> Answer {
    match heap.greatest() {
        Some(top) => (Some((top.key, top.rank)), heap.len()),
        None => (None, heap.len()),
    }
}

/// Makes the changes one after another, and answers the number of the first one after which the heap isn't as told.
fn first_wrong_of(heap: &mut IndexedHeap<u32>, rows: &[(Change, Answer)]) -> Option<usize> {
    for (number, ((key, rank), wanted)) in rows.iter().enumerate() {
        change(heap, *key, *rank);
        let has_rank = heap.get(*key) == *rank && heap.contains(*key) == rank.is_some();
        if !has_rank || answer(heap) != *wanted {
            return Some(number);
        }
    }
    None
}

/// The rooms of heaps, their changes, and the first change after which one isn't as told.
const HEAPS: &[(&str, (u32, &[(Change, Answer)]), Option<usize>)] = &[
    ("five keys", (5, FIVE), None),
    ("one key", (1, ONE), None),
    ("no key", (0, &[]), None),
];

/// The first change after which a heap of a room isn't as told. It is the first one where there is no memory.
fn first_wrong(alloc: Global, given: &(u32, &[(Change, Answer)])) -> Option<usize> {
    let Ok(mut heap) = IndexedHeap::make(alloc, given.0.min(MAX_OBJECTS)) else {
        return Some(0);
    };
    let wrong = first_wrong_of(&mut heap, given.1);
    drop(heap);
    wrong
}

#[test]
fn changes(rt: HostRuntime) {
    assert_eq!(rt; wrong_rows(&rt, rt.alloc(), HEAPS, first_wrong), 0);
}

/// Gives a heap of two keys a rank, widens it to fewer keys than it has and to five, and gives it a second one: whether it has room for so
/// many keys each time, and the ranks that it was given.
fn is_widened(heap: &mut IndexedHeap<u32>) -> Result<bool, Memory> {
    change(heap, 1, Some(8));
    heap.widen(1)?;
    let narrow = heap.room();
    heap.widen(5)?;
    let wide = heap.room();
    let kept = answer(heap);
    change(heap, 4, Some(9));
    let has_room = (narrow, wide) == (2, 5);
    Ok(has_room && kept == (Some((1, 8)), 1) && answer(heap) == (Some((4, 9)), 2))
}

#[test]
fn wider(rt: HostRuntime) -> Result<(), Memory> {
    let mut heap = IndexedHeap::make(rt.alloc(), 2)?;
    let is_widened = is_widened(&mut heap);
    drop(heap);
    assert!(rt; is_widened?);
    Ok(())
}
