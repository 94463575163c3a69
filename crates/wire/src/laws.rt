//! Laws of what bytes answer: the answers exclude each other, and the message of an `Ok` is the only one. So
//! each answer of `read_request` and `read_response` comes exactly where its definition holds, but for
//! `BadMessage` and `TooLong`, which may both hold of the same bytes.

ghost use Rattle.std.specs.Prelude.{◌≡◌, ℕ, List, option_map};
ghost use Rattle.wire.specs.Heads.{IsRequest, IsNoRequest, PassesRequest};
ghost use Rattle.wire.specs.Responses.{IsReply, IsNoResponse, PassesResponse};
ghost use Rattle.wire.specs.declared.request.Head.{Head};
ghost use Rattle.wire.specs.declared.response.Reply.{Reply};

/// Bytes that are a request within the limits are no other request, aren't none, and pass no limit.
pub fn a_request_is_the_only_answer()
    ensures only { (bytes : List ℕ) (one other : Head) → IsRequest bytes one → IsRequest bytes other
        → (one.method ≡ other.method) × (one.target.items ≡ other.target.items) }
    ensures whole { (bytes : List ℕ) (head : Head) → IsRequest bytes head → IsNoRequest bytes → ⊥ }
    ensures short { (bytes : List ℕ) (head : Head) (limit : ℕ) → IsRequest bytes head → PassesRequest limit bytes → ⊥ }
{}

/// Bytes that are a response within the limits are no other response, aren't none, and pass no limit.
pub fn a_reply_is_the_only_answer()
    ensures only { (bytes : List ℕ) (one other : Reply) → IsReply bytes one → IsReply bytes other
        → (one.status ≡ other.status) × (option_map (λ body. body.items) one.body ≡ option_map (λ body. body.items) other.body) }
    ensures whole { (bytes : List ℕ) (reply : Reply) → IsReply bytes reply → IsNoResponse bytes → ⊥ }
    ensures short { (bytes : List ℕ) (reply : Reply) (limit : ℕ) → IsReply bytes reply → PassesResponse limit bytes → ⊥ }
{}
