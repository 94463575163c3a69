//! The small types over vectors, each call once.

use super::holds;
use ranked_list::{Item, Items, PageRows, Row};
use std::alloc::Global;

const ROW: Row = Row {
    object: 7,
    grade: 5,
};

const ITEM: Item = Item {
    object: 7,
    low: 5,
    high: 9,
};

/// Whether a page is of this row, twice.
fn is_twice(rows: &PageRows) -> bool {
    rows.len() == 2
        && !rows.is_empty()
        && rows.get(1).copied() == Some(ROW)
        && rows.get(2).is_none()
}

/// Whether a page gives back the rows that it was made of.
fn gives_back_rows(alloc: Global) -> bool {
    let Ok(made) = [ROW, ROW].to_vec(alloc) else {
        return false;
    };
    let rows = PageRows::from_vec(made);
    let are_kept = is_twice(&rows);
    let given = rows.into_vec();
    let are_given = given.as_slice() == [ROW, ROW].as_slice();
    drop(given);
    are_kept && are_given
}

/// Whether items are this one.
fn is_one(items: &Items) -> bool {
    items.len() == 1
        && !items.is_empty()
        && items.get(0).copied() == Some(ITEM)
        && items.get(1).is_none()
}

/// Whether items give back what they were made of.
fn gives_back_items(alloc: Global) -> bool {
    let Ok(made) = [ITEM].to_vec(alloc) else {
        return false;
    };
    let items = Items::from_vec(made);
    let are_kept = is_one(&items);
    let given = items.into_vec();
    let are_given = given.as_slice() == [ITEM].as_slice();
    drop(given);
    are_kept && are_given
}

#[test]
fn gives_back_rows_and_items(rt: HostRuntime) {
    let gives_rows = gives_back_rows(rt.alloc());
    let gives_items = gives_back_items(rt.alloc());
    holds(&rt, gives_rows && gives_items);
}
