//! Of which list a node's answers are, and what is read of them: the reply by `wire`, and its body by `page_json`.

ghost use Rattle.std.specs.Prelude.{◌<◌, ◌≤◌, ◌^◌, false, ℕ, List, Option, Result, Ok, All, length};
ghost use Rattle.tk_io.specs.Links.{Closed};
ghost use Rattle.topk_base.specs.declared.TheConstants.{MAX_BODY};
ghost use Rattle.wire.specs.Responses.{AnswersResponse};
ghost use Rattle.wire.specs.declared.fault.WireFault.{WireFault};
ghost use Rattle.wire.specs.declared.response.Reply.{Reply};
ghost use Rattle.source_node.specs.Connections.{reply_of};
ghost use Rattle.source_node.specs.ReadingBack.{ReadsBack, IsSmall, Says};
ghost use Rattle.source_node.specs.Serving.{Seen, text_of};
ghost use Rattle.source_node.specs.ServingLinks.{ServesEach, IsServedOf};
ghost use Rattle.source_node.specs.declared.answer.Answer.{Answer};

use page_json::{bodies_are_short, grades_read_back, pages_read_back, sizes_read_back};

/// Of the links that were served one after another, each was served of the list that the source told before the first, and of the version that it
/// stated then.
pub fn each_link_is_of_one_list()
    ensures { (name : List ℕ) (version : Option ℕ) (links links_now : Option (List (List ℕ))) (source source_now : Seen) (ones : List Closed)
        → ServesEach name version links links_now source source_now ones
        → All (IsServedOf name version source) ones }
{}

/// The reply with an answer is read as a response of status 200 with this body, whatever the body is.
pub fn an_answer_is_read()
    ensures { (text : List ℕ) (result : Result Reply WireFault) → length text ≤ MAX_BODY
        → AnswersResponse (reply_of false (Ok text)) result → ReadsBack text result }
{}

/// The body of an answer says it, at its version, and is no longer than a body may be.
pub fn a_body_says_its_answer()
    ensures says { (version : ℕ) (answer : Answer) → version < 2 ^ 64 → IsSmall answer → Says version answer (text_of version answer) }
    ensures short { (version : ℕ) (answer : Answer) → version < 2 ^ 64 → IsSmall answer → length (text_of version answer) ≤ MAX_BODY }
{
    sizes_read_back();
    pages_read_back();
    grades_read_back();
    bodies_are_short();
}
