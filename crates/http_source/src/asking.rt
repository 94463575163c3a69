//! Calls on a list that is served at a place: a request, and what its reply says.

ghost use Rattle.std.specs.Prelude.{◌≡◌, ◌≤◌, [], Some, None, vec_len, IfSome, IfOk, IfErr, OnErr};
ghost use Rattle.source_api.specs.Counting.{MovedHasCause, IsNoMove};
ghost use Rattle.wire.specs.Writing.{request_text};
ghost use Rattle.http_source.specs.Requests.{size_tail, page_tail, grade_tail};
ghost use Rattle.http_source.specs.Exchanges.{next_bytes, host_port, UsesLink, DialsOnce, FailsWith, IsUnanswered};
ghost use Rattle.http_source.specs.Answers.{AnswersSize, AnswersPage, AnswersGrade};

use super::exchange::{ask, ask_made};
use super::laws::replies_say_one_thing;
use super::saying::{grade_said, page_said, size_said};
use super::tails::{SIZE_TAIL, grade_tail, page_tail};
use ranked_list::Row;
use source_api::Trouble;
use std::alloc::Global;
use tk_io::Dial;
use wire::Place;

/// Asks how many rows the list has. The version that the reply states is the one at hand from then on.
pub(crate) fn ask_size<D: Dial>(
    alloc: Global,
    dial: &mut D,
    place: &Place,
    at_hand: &mut u64,
) -> Result<u64, Trouble>
    ensures answers { IfSome (next_bytes (D.links dial.old)) (λ bytes. AnswersSize bytes at_hand.new result) }
    ensures unlinked { D.links dial.old ≡ Some [] → IsUnanswered result }
    ensures unmoved { IfErr result IsNoMove }
    ensures kept { OnErr result (at_hand.new ≡ at_hand.old) }
    ensures cause { FailsWith (D.faults dial.old) (D.faults dial.new) result }
    ensures later { D.faults dial.old ≤ D.faults dial.new }
    ensures dialled { DialsOnce (host_port place.now) (D.dialled dial.old) (D.dialled dial.new) result }
    ensures link { UsesLink (request_text place.now size_tail)
        (D.links dial.old) (D.links dial.new) (D.closed dial.old) (D.closed dial.new) result }
{
    replies_say_one_thing();
    match ask(alloc, dial, place, SIZE_TAIL) {
        Ok(body) => size_said(alloc, &body, at_hand),
        Err(trouble) => Err(trouble),
    }
}

/// Asks for the rows after the first `from`, at most `count` of them, at the version at hand.
pub(crate) fn ask_page<D: Dial>(
    alloc: Global,
    dial: &mut D,
    place: &Place,
    at_hand: u64,
    from: u32,
    count: u32,
) -> Result<Vec<Row>, Trouble>
    ensures answers { IfSome (next_bytes (D.links dial.old)) (λ bytes. AnswersPage bytes at_hand count result) }
    ensures unlinked { D.links dial.old ≡ Some [] → IsUnanswered result }
    ensures bound { IfOk result (λ page. vec_len page ≤ count) }
    ensures moved { IfErr result (MovedHasCause at_hand None) }
    ensures cause { FailsWith (D.faults dial.old) (D.faults dial.new) result }
    ensures later { D.faults dial.old ≤ D.faults dial.new }
    ensures dialled { DialsOnce (host_port place.now) (D.dialled dial.old) (D.dialled dial.new) result }
    ensures link { UsesLink (request_text place.now (page_tail from count))
        (D.links dial.old) (D.links dial.new) (D.closed dial.old) (D.closed dial.new) result }
{
    replies_say_one_thing();
    match ask_made(alloc, dial, place, page_tail(alloc, from, count)) {
        Ok(body) => page_said(alloc, &body, at_hand, count),
        Err(trouble) => Err(trouble),
    }
}

/// Asks for the grade of an object at the version at hand.
pub(crate) fn ask_grade<D: Dial>(
    alloc: Global,
    dial: &mut D,
    place: &Place,
    at_hand: u64,
    object: u32,
) -> Result<Option<u32>, Trouble>
    ensures answers { IfSome (next_bytes (D.links dial.old)) (λ bytes. AnswersGrade bytes at_hand result) }
    ensures unlinked { D.links dial.old ≡ Some [] → IsUnanswered result }
    ensures moved { IfErr result (MovedHasCause at_hand None) }
    ensures cause { FailsWith (D.faults dial.old) (D.faults dial.new) result }
    ensures later { D.faults dial.old ≤ D.faults dial.new }
    ensures dialled { DialsOnce (host_port place.now) (D.dialled dial.old) (D.dialled dial.new) result }
    ensures link { UsesLink (request_text place.now (grade_tail object))
        (D.links dial.old) (D.links dial.new) (D.closed dial.old) (D.closed dial.new) result }
{
    replies_say_one_thing();
    match ask_made(alloc, dial, place, grade_tail(alloc, object)) {
        Ok(body) => grade_said(alloc, &body, at_hand),
        Err(trouble) => Err(trouble),
    }
}
