//! Where a reader of a query line stands.

ghost use Rattle.std.specs.Prelude.{◌≡◌};
ghost use Rattle.query_text.specs.Course.{may_end};

/// Which piece of a query line comes next.
#[derive(Clone, Copy)]
pub enum ParserState {
    /// `top `
    Top,
    /// k
    Count,
    /// ` by `
    By,
    /// A name, or an operator with its `(`.
    Operand,
    /// `,` or `)` inside an operator, else ` using `.
    Behind,
    /// A weight.
    Weight,
    /// `*`
    Times,
    /// The word of an algorithm.
    Algorithm,
    /// The first number of a factor.
    Factor,
    /// `/`
    Over,
    /// The second number of a factor.
    Under,
    /// A depth.
    Depth,
    /// ` cost `, ` room ` or the end.
    Options,
    /// The cost of a sorted access.
    Sorted,
    /// The blank between the costs.
    Between,
    /// The cost of a random access.
    Random,
    /// ` room ` or the end.
    Priced,
    /// The room.
    Room,
    /// The end.
    Done,
}

/// Whether a line may end before what comes next.
pub fn may_end(stage: ParserState) -> bool
    ensures { result ≡ may_end stage }
{
    matches!(
        stage,
        ParserState::Options | ParserState::Priced | ParserState::Done
    )
}
