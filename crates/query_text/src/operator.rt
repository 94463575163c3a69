//! The operators of an expression.

/// An operator over the values of expressions.
#[derive(Clone, Copy)]
pub enum Operator {
    /// The least of the values, `min`.
    Min,
    /// The greatest of the values, `max`.
    Max,
    /// The sum of the values, `sum`.
    Sum,
    /// The middle one of the values, `median`.
    Median,
    /// The sum of weight times value, `wsum`.
    Wsum,
}
