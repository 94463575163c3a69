//! Boards row by row.

ghost use Rattle.std.specs.Prelude.{◌≤◌, length};

use machine_base::{Board, Items, Memory};
use std::alloc::Global;
use test_support::wrong_rows;

/// An object with its low and its high.
type Put = (u32, u64, u64);

/// A board's k, what is put on it, and the first k then.
type Given = (u32, &'static [Put], &'static [Put]);

/// Boards, and the k-th low of each.
const BOARDS: &[(&str, Given, Option<Option<u64>>)] = &[
    ("no object", (3, &[], &[]), Some(None)),
    ("one object", (3, &[(7, 5, 9)], &[(7, 5, 9)]), Some(None)),
    (
        "fewer than k",
        (3, &[(7, 5, 9), (2, 6, 6)], &[(2, 6, 6), (7, 5, 9)]),
        Some(None),
    ),
    (
        "as many as k",
        (
            3,
            &[(7, 5, 9), (2, 6, 6), (4, 1, 9)],
            &[(2, 6, 6), (7, 5, 9), (4, 1, 9)],
        ),
        Some(Some(1)),
    ),
    (
        "more than k",
        (
            3,
            &[(7, 5, 9), (2, 6, 6), (4, 1, 9), (9, 3, 3)],
            &[(2, 6, 6), (7, 5, 9), (9, 3, 3)],
        ),
        Some(Some(3)),
    ),
    (
        "the first one",
        (
            1,
            &[(7, 5, 9), (2, 6, 6), (4, 1, 9), (9, 3, 3)],
            &[(2, 6, 6)],
        ),
        Some(Some(6)),
    ),
    (
        "all of them",
        (
            1_000_000,
            &[(7, 5, 9), (2, 6, 6), (4, 1, 9), (9, 3, 3)],
            &[(2, 6, 6), (7, 5, 9), (9, 3, 3), (4, 1, 9)],
        ),
        Some(None),
    ),
    (
        "equal lows",
        (
            2,
            &[(1, 5, 7), (2, 5, 9), (3, 5, 8)],
            &[(2, 5, 9), (3, 5, 8)],
        ),
        Some(Some(5)),
    ),
    (
        "equal lows and highs",
        (
            2,
            &[(8, 5, 5), (3, 5, 5), (5, 5, 5)],
            &[(3, 5, 5), (5, 5, 5)],
        ),
        Some(Some(5)),
    ),
    (
        "put again upwards",
        (
            2,
            &[(1, 9, 9), (2, 8, 8), (3, 1, 9), (3, 10, 10)],
            &[(3, 10, 10), (1, 9, 9)],
        ),
        Some(Some(9)),
    ),
    (
        "put again downwards",
        (
            2,
            &[(1, 9, 9), (2, 8, 8), (3, 7, 9), (1, 2, 9)],
            &[(2, 8, 8), (3, 7, 9)],
        ),
        Some(Some(7)),
    ),
    (
        "put again as it was",
        (
            2,
            &[(1, 9, 9), (2, 8, 8), (1, 9, 9)],
            &[(1, 9, 9), (2, 8, 8)],
        ),
        Some(Some(8)),
    ),
];

/// A board of `k` on which these were put.
fn put_all(alloc: Global, k: u32, puts: &[Put]) -> Result<Board, Memory>
    requires positive { 1 ≤ k }
    requires few { length puts.now ≤ 4 }
{
    let mut board = Board::make(alloc, k, 4)?;
    for &(object, low, high) in puts {
        board.put(object, low, high);
    }
    Ok(board)
}

/// Whether an object is one of these.
fn has(puts: &[Put], object: u32) -> bool {
    for put in puts {
        if put.0 == object {
            return true;
        }
    }
    false
}

/// Whether those that were put are among the first k where they are wanted there, and no object else.
fn are_top(board: &Board, puts: &[Put], first: &[Put]) -> bool {
    for put in puts {
        if board.is_top(put.0) != has(first, put.0) {
            return false;
        }
    }
    !board.is_top(100)
}

/// Whether items are those that are wanted.
fn are_items(items: &Items, wanted: &[Put]) -> bool {
    if items.len() as usize != wanted.len() {
        return false;
    }
    for (item, put) in items.iter().zip(wanted) {
        if (item.object, item.low, item.high) != *put {
            return false;
        }
    }
    true
}

/// The k-th low of a board, whose first k are as its row says. Four objects at most have room on it.
fn kth_of(alloc: Global, given: &Given) -> Option<Option<u64>> {
    let (k, puts, first) = *given;
    if k == 0 || puts.len() > 4 {
        return None;
    }
    let board = put_all(alloc, k, puts).ok()?;
    let kth = board.kth();
    let is_so = are_top(&board, puts, first);
    let items = board.first().ok()?;
    let is_right = is_so && are_items(&items, first);
    drop(items);
    if is_right { Some(kth) } else { None }
}

#[test]
fn boards_by_hand(rt: HostRuntime) {
    assert_eq!(rt; wrong_rows(&rt, rt.alloc(), BOARDS, kth_of), 0);
}
