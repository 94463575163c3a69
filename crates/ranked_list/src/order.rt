//! Whether a row may follow the rows above it, by its grade.

ghost use Rattle.ranked_list.specs.Order.{FindsOrder};

use super::row::Row;
use topk_base::TOP_GRADE;

/// Why a row may not follow the rows above it. Places count from the caller's own first place.
#[derive(Clone, Copy, Debug, PartialEq, Eq)]
pub enum RowFault {
    /// The grade `after` of the row at `place` is above `before`, the grade of the row over it.
    OutOfOrder { place: u32, before: u32, after: u32 },
    /// The grade of the row at `place` is above the greatest that there is, 1,000,000.
    TooHigh { place: u32, grade: u32 },
}

/// Whether the row at a place may follow `last`, the row over it, if there is one: its grade is
/// neither above 1,000,000 nor above that row's grade. Where both hold, the grade is too high.
pub fn check_next(place: u32, last: Option<Row>, row: Row) -> Result<(), RowFault>
    ensures { FindsOrder place last row result }
{
    if row.grade > TOP_GRADE {
        return Err(RowFault::TooHigh {
            place,
            grade: row.grade,
        });
    }
    match last {
        Some(above) if above.grade < row.grade => Err(RowFault::OutOfOrder {
            place,
            before: above.grade,
            after: row.grade,
        }),
        _ => Ok(()),
    }
}
