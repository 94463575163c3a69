//! The syntax of a query line, word by word.

ghost use Rattle.std.specs.Prelude.{◌≡◌, [], OnOk, IfErr, if◌then◌else◌};
ghost use Rattle.query_text.specs.Course.{course_view, standing_next, is_open, at, argument_stage, algorithm_stage, behind_word, behind_operand, plain_next};
ghost use Rattle.query_text.specs.Words.{opened_by};
ghost use Rattle.query_text.specs.Front.{is_weighted};

use super::fault::QueryFault;
use super::named::{is_text, opened_by};
use super::operator::Operator;
use super::parser_state::ParserState;
use std::alloc::Global;

/// Where the syntax of a query line stands.
#[derive(Drop)]
pub struct Course {
    /// Which piece comes next.
    pub stage: ParserState,
    /// The open operators, the innermost last.
    pub operators: Vec<Operator>,
}

/// Whether a weight stands before each argument of an operator.
pub fn is_weighted(operator: Operator) -> bool
    ensures { result ≡ is_weighted operator }
{
    matches!(operator, Operator::Wsum)
}

/// What comes next where an argument of an operator begins.
fn argument_stage(operator: Operator) -> ParserState
    ensures { result ≡ argument_stage operator }
{
    if is_weighted(operator) {
        ParserState::Weight
    } else {
        ParserState::Operand
    }
}

/// What comes next behind the word of an algorithm.
fn algorithm_stage(word: &[u8]) -> ParserState
    ensures { result ≡ algorithm_stage word.now }
{
    if is_text(word, b"theta ") {
        return ParserState::Factor;
    }
    if is_text(word, b"early ") {
        return ParserState::Depth;
    }
    ParserState::Options
}

/// What comes next behind the first word of the options.
fn option_stage(is_cost: bool) -> ParserState
    ensures { result ≡ (if is_cost then ParserState.Sorted else ParserState.Room) }
{
    if is_cost {
        ParserState::Sorted
    } else {
        ParserState::Room
    }
}

/// What comes next where one piece alone may follow.
fn plain_next(stage: ParserState) -> ParserState
    ensures { result ≡ plain_next stage }
{
    match stage {
        ParserState::Top => ParserState::Count,
        ParserState::Count => ParserState::By,
        ParserState::By | ParserState::Times | ParserState::Operand => ParserState::Operand,
        ParserState::Behind | ParserState::Algorithm | ParserState::Under | ParserState::Depth =>
            ParserState::Options,
        ParserState::Weight => ParserState::Times,
        ParserState::Factor => ParserState::Over,
        ParserState::Over => ParserState::Under,
        ParserState::Options | ParserState::Priced => ParserState::Room,
        ParserState::Sorted => ParserState::Between,
        ParserState::Between => ParserState::Random,
        ParserState::Random => ParserState::Priced,
        ParserState::Room | ParserState::Done => ParserState::Done,
    }
}

impl Course {
    /// At the front of a line. Takes no memory.
    pub fn new(alloc: Global) -> Course
        ensures { course_view result ≡ at ParserState.Top [] }
    {
        Course {
            stage: ParserState::Top,
            operators: Vec::new(alloc),
        }
    }

    /// Whether an operator is open.
    pub fn is_inside(&self) -> bool
        ensures { result ≡ is_open (course_view self.now).operators }
    {
        !self.operators.is_empty()
    }

    /// Goes on behind a whole word of the stage. The one error is that memory was refused; after it the
    /// course isn't to be used.
    pub fn advance(&mut self, word: &[u8]) -> Result<(), QueryFault>
        ensures ok { OnOk result (course_view self.new
            ≡ standing_next self.old.stage (course_view self.old).operators word.now) }
        ensures err { IfErr result (λ fault. fault ≡ QueryFault.Memory) }
    {
        match self.stage {
            ParserState::Operand => self.leave_word(word),
            ParserState::Behind => {
                self.leave_operand(is_text(word, b","));
                Ok(())
            }
            ParserState::Algorithm => {
                self.stage = algorithm_stage(word);
                Ok(())
            }
            ParserState::Options => {
                self.stage = option_stage(is_text(word, b" cost "));
                Ok(())
            }
            stage => {
                self.stage = plain_next(stage);
                Ok(())
            }
        }
    }

    /// Goes on behind the word of an operand.
    fn leave_word(&mut self, word: &[u8]) -> Result<(), QueryFault>
        ensures ok { OnOk result (course_view self.new
            ≡ behind_word (course_view self.old).operators (opened_by word.now)) }
        ensures err { IfErr result (λ fault. fault ≡ QueryFault.Memory) }
    {
        let Some(operator) = opened_by(word) else {
            self.stage = ParserState::Behind;
            return Ok(());
        };
        let Ok(()) = self.operators.push(operator) else {
            return Err(QueryFault::Memory);
        };
        self.stage = argument_stage(operator);
        Ok(())
    }

    /// Goes on behind what stands behind an operand.
    fn leave_operand(&mut self, comma: bool)
        ensures { course_view self.new ≡ behind_operand (course_view self.old).operators comma }
    {
        let Some(operator) = self.operators.last().copied() else {
            self.stage = ParserState::Algorithm;
            return;
        };
        if comma {
            self.stage = argument_stage(operator);
        } else {
            let _ = self.operators.pop();
            self.stage = ParserState::Behind;
        }
    }
}
