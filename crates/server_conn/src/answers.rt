//! What a worker keeps from one connection to the next.

ghost use Rattle.std.specs.Prelude.{◌≡◌, ◌≤◌, ◌<◌, ◌+◌, ◌-◌, ◌++◌, ◌∷◌, [], length, drop, map, option_copied, IfOk, vec_capacity};
ghost use Rattle.server_conn.specs.Answers.{line_answer, text_of, newest, is_kept, remembering};
ghost use Rattle.server_conn.specs.Becoming.{shown};

use super::line::ToldLine;
use super::route::TopRoute;
use std::alloc::Global;
use std::marker::Model;
use topk_base::Memory;

/// The most answers that a worker remembers.
pub const MAX_ANSWERS: usize = 8;

/// The most bytes of an answer that a worker remembers.
pub const MAX_ANSWER: usize = 524_288;

/// A query line, and the text of its answer.
#[derive(Drop)]
pub(crate) struct Answer {
    pub(crate) line: Vec<u8>,
    pub(crate) text: Vec<u8>,
}

/// The last query lines whose queries a worker ran through its pass to an answer of at most `MAX_ANSWER` bytes, each with the text of its answer: at most
/// `MAX_ANSWERS`, the oldest first. Beside them stands the route of its requests, of which contracts see nothing, as it never changes.
#[derive(Drop)]
pub struct Answers {
    route: TopRoute,
    kept: Vec<Answer>,
}

impl Model for Answers {
    ghost use Rattle.std.specs.Prelude.{◌≤◌, List, map, vec_capacity};
    ghost use Rattle.server_conn.specs.declared.answers.TheConstants.{MAX_ANSWERS};
    ghost use Rattle.server_conn.specs.Answers.{LineAnswer, line_answer, AreFew};

    ghost Value = { List LineAnswer };

    ghost view = { λ a. map line_answer a.kept.items };

    ghost invariant = { λ a. AreFew (map line_answer a.kept.items) × (MAX_ANSWERS ≤ vec_capacity a.kept) };
}

impl Answers {
    /// No answers. Takes memory for the route and for the list of answers.
    pub fn make(alloc: Global) -> Result<Answers, Memory>
        ensures { IfOk result (λ answers. answers ≡ []) }
    {
        let route = TopRoute::make(alloc)?;
        let kept = Vec::with_capacity(alloc, MAX_ANSWERS)?;
        Ok(Answers { route, kept })
    }

    /// The route of requests.
    pub(crate) fn route(&self) -> &TopRoute {
        &self.route
    }

    /// The text that is remembered of a line.
    ///
    /// *Cost*: the line is compared with each that is remembered.
    pub(crate) fn find(&self, line: &[u8]) -> Option<&[u8]>
        ensures { option_copied result ≡ text_of line.now self.now }
    {
        text_in(self.kept.as_slice(), line)
    }

    /// Remembers what was told of a line if it is an answer that isn't too long, and forgets the oldest where there are too many. Takes no memory.
    pub(crate) fn keep(&mut self, line: Vec<u8>, told: ToldLine)
        ensures { self.new ≡ remembering self.old line.items (shown told) }
    {
        if is_kept(&told) {
            let text = told.text;
            push_newest(&mut self.kept, Answer { line, text });
        }
    }
}

/// The text of the first answer to a line.
fn text_in<'a>(answers: &'a [Answer], line: &[u8]) -> Option<&'a [u8]>
    ensures { option_copied result ≡ text_of line.now (map line_answer answers.now) }
{
    for place in 0..answers.len() {
        if answers[place].line.as_slice() == line {
            return Some(answers[place].text.as_slice());
        }
    }
    None
}

/// Whether what is told of a line is to be remembered.
fn is_kept(told: &ToldLine) -> bool
    ensures { result ≡ is_kept (shown told.now) }
{
    told.answered && told.text.len() <= MAX_ANSWER
}

/// Puts an answer behind the others, of which the oldest goes where there are too many.
fn push_newest(kept: &mut Vec<Answer>, answer: Answer)
    requires few { length kept.old.items ≤ MAX_ANSWERS }
    requires room { MAX_ANSWERS ≤ vec_capacity kept.old }
    ensures newest { kept.new.items ≡ newest (kept.old.items ++ answer ∷ []) }
    ensures room { MAX_ANSWERS ≤ vec_capacity kept.new }
{
    make_room(kept);
    kept.push_reserved(answer);
}

/// Makes room for one more: the oldest goes where there are as many as may be.
fn make_room(kept: &mut Vec<Answer>)
    requires few { length kept.old.items ≤ MAX_ANSWERS }
    ensures few { length kept.new.items < MAX_ANSWERS }
    ensures made { kept.new.items ≡ drop (length kept.old.items + 1 - MAX_ANSWERS) kept.old.items }
    ensures room { vec_capacity kept.new ≡ vec_capacity kept.old }
{
    if kept.len() == MAX_ANSWERS {
        drop(kept.remove(0));
    }
}
