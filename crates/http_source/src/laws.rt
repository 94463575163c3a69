//! Laws of replies: they say one thing, and what they say is given.

ghost use Rattle.std.specs.Prelude.{◌≡◌, ℕ, List, Option, Result};
ghost use Rattle.std.specs.Global.{Vec};
ghost use Rattle.ranked_list.specs.declared.row.Row.{Row};
ghost use Rattle.source_api.specs.declared.source.Trouble.{Trouble};
ghost use Rattle.page_json.specs.declared.object.Versioned.{Versioned};
ghost use Rattle.http_source.specs.Replies.{Brings, SaysSize, SaysPage, SaysGrade};
ghost use Rattle.http_source.specs.Answers.{AnswersSize, AnswersPage, AnswersGrade};
ghost use Rattle.http_source.specs.ReadingBack.{GivesSize, GivesPage, GivesGrade};

use page_json::a_body_says_one_thing;
use wire::a_reply_is_the_only_answer;

/// Bytes bring one body, which says one thing. So the answers to a call exclude each other.
pub fn replies_say_one_thing()
    ensures body { (bytes one other : List ℕ) → Brings bytes one → Brings bytes other → one ≡ other }
    ensures size { (bytes : List ℕ) (one other : Versioned ℕ) → SaysSize bytes one → SaysSize bytes other → one ≡ other }
    ensures page { (bytes : List ℕ) (one other : Versioned (List Row)) → SaysPage bytes one → SaysPage bytes other → one ≡ other }
    ensures grade { (bytes : List ℕ) (one other : Versioned (Option ℕ)) → SaysGrade bytes one → SaysGrade bytes other → one ≡ other }
{
    a_reply_is_the_only_answer();
    a_body_says_one_thing();
}

/// A call whose link brings a body gives what the body says: the size, at its version; rows or a grade
/// where its version is the one at hand, and else that the list moved to it.
pub fn what_is_said_is_given()
    ensures size { (bytes : List ℕ) (said : Versioned ℕ) (version : ℕ) (result : Result ℕ Trouble)
        → SaysSize bytes said → AnswersSize bytes version result → GivesSize said version result }
    ensures page { (bytes : List ℕ) (said : Versioned (List Row)) (version count : ℕ) (result : Result (Vec Row) Trouble)
        → SaysPage bytes said → AnswersPage bytes version count result → GivesPage said version count result }
    ensures grade { (bytes : List ℕ) (said : Versioned (Option ℕ)) (version : ℕ) (result : Result (Option ℕ) Trouble)
        → SaysGrade bytes said → AnswersGrade bytes version result → GivesGrade said version result }
{
    replies_say_one_thing();
}
