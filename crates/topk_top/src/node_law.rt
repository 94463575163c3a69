//! The law of a node's answers that a source over its host reads.

ghost use Rattle.std.specs.Prelude.{◌<◌, ◌≤◌, ◌^◌, ℕ, List, Option, Result, All, drop, length, take};
ghost use Rattle.std.specs.Global.{Vec};
ghost use Rattle.topk_base.specs.declared.TheConstants.{MAX_PAGE};
ghost use Rattle.ranked_list.specs.declared.row.Row.{Row};
ghost use Rattle.source_api.specs.declared.source.Trouble.{Trouble};
ghost use Rattle.page_json.specs.Bodies.{Fits};
ghost use Rattle.http_source.specs.Answers.{AnswersSize, AnswersPage, AnswersGrade};
ghost use Rattle.http_source.specs.Replies.{json_reply};
ghost use Rattle.source_node.specs.declared.asked.Asked.TheVariants as asked;
ghost use Rattle.topk_top.specs.ReadBack.{AnswersOver, ReadsSize, ReadsRows, ReadsGrade};

use http_source::what_is_said_is_given;
use source_node::a_body_says_its_answer;
use std::alloc::Global;

/// A node's reply with an answer over a told list, read by a call of a source over its host, gives what the list has: its size, at the
/// version that the reply states from then on; and where the reply states the version at hand all rows of a slice, of at most as many as a page
/// may have, or the grade of the object. Where it states another version the list moved, and nothing of the reply is given. The call is
/// never garbled. It may fail, or be refused memory. The heap is that of the body that is read.
pub fn a_node_is_read_back(heap: Global)
    ensures size { (list : List Row) (version at_hand : ℕ) (body : List ℕ) (result : Result ℕ Trouble) → length list < 2 ^ 64
        → AnswersOver asked.Size list version body → AnswersSize (json_reply body) at_hand result → ReadsSize (length list) version at_hand result }
    ensures page { (list : List Row) (from count version at_hand : ℕ) (body : List ℕ) (result : Result (Vec Row) Trouble) → length list ≤ 2 ^ 32
        → All Fits list → count ≤ MAX_PAGE → AnswersOver (asked.Page from count) list version body
        → AnswersPage (json_reply body) at_hand count result → ReadsRows (take count (drop from list)) version at_hand result }
    ensures grade { (list : List Row) (object version at_hand : ℕ) (body : List ℕ) (result : Result (Option ℕ) Trouble) → All Fits list
        → AnswersOver (asked.Grade object) list version body → AnswersGrade (json_reply body) at_hand result → ReadsGrade list object version at_hand result }
{
    // Serves the prover alone: its proof needs a heap for the body that is read.
    let _ = heap;
    a_body_says_its_answer();
    what_is_said_is_given();
}
