//! How the queries of worlds end.

use super::cases::{Case, first_wrong};
use super::{fails, faults, grades, moves, none_is_wrong, tables};
use std::alloc::Global;

/// The place of the first case whose queries end otherwise, counted through all tables.
fn first_wrong_of(alloc: Global, tables: &[&[Case]]) -> Option<usize> {
    let mut before: usize = 0;
    for table in tables {
        if let Some(row) = first_wrong(alloc, *table) {
            return Some(before.saturating_add(row));
        }
        before = before.saturating_add(table.len());
    }
    None
}

/// Queries end as they are to: over lists that are a table, after calls that fail, over lists that are no table, by grades that don't
/// go with the rows, and over lists that are replaced.
#[test]
fn ends_as_worked_out(rt: HostRuntime) {
    let tables: &[&[Case]] = &[
        &tables::CASES,
        &fails::CASES,
        &faults::CASES,
        &grades::CASES,
        &moves::CASES,
    ];
    none_is_wrong(&rt, first_wrong_of(rt.alloc(), tables));
}
