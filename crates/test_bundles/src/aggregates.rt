//! Aggregates by hand, apart from the crates that are tested.

use std::alloc::Global;

/// An aggregate over lists of any number.
#[derive(Clone, Copy)]
pub enum Aggregate {
    Sum,
    Min,
    Max,
    Median,
    /// The sum in which the first list counts once, the second twice, and so on.
    Weighted,
}

impl Aggregate {
    /// Its word in a query, and whether weights stand before its lists.
    pub fn word(self) -> (&'static str, bool) {
        match self {
            Aggregate::Sum => ("sum", false),
            Aggregate::Min => ("min", false),
            Aggregate::Max => ("max", false),
            Aggregate::Median => ("median", false),
            Aggregate::Weighted => ("wsum", true),
        }
    }

    /// The aggregate of an object by its grades, list by list. None where there is none, or no memory.
    pub fn of(self, alloc: Global, grades: &[u64]) -> Option<u64> {
        match self {
            Aggregate::Sum => Some(weighted(grades, 0)),
            Aggregate::Weighted => Some(weighted(grades, 1)),
            Aggregate::Min => grades.iter().copied().min(),
            Aggregate::Max => grades.iter().copied().max(),
            Aggregate::Median => median(alloc, grades),
        }
    }
}

/// The grade in the middle, or that before it.
fn median(alloc: Global, grades: &[u64]) -> Option<u64> {
    let Ok(mut sorted) = grades.to_vec(alloc) else {
        return None;
    };
    sorted.sort_unstable();
    let place = (sorted.len().saturating_sub(1)) / 2;
    let grade = sorted.get(place).copied();
    drop(sorted);
    grade
}

/// The sum of the grades, with weights that begin with 1 and rise by `step`.
fn weighted(grades: &[u64], step: u64) -> u64 {
    let mut sum: u64 = 0;
    let mut weight: u64 = 1;
    for grade in grades {
        sum = sum.saturating_add(weight.saturating_mul(*grade));
        weight = weight.saturating_add(step);
    }
    sum
}
