ghost use Rattle.std.specs.Prelude.{◌≡◌, ℕ, List, ◌∷◌, Option, Some, None};
ghost use Rattle.namespace_model.specs.PageRuns.{Course};
ghost use Rattle.namespace_model.specs.Trees.{Path};
ghost use Rattle.followed_calls.specs.Calls.{AnsweredCall, AsksFor, KeepsPromise};
ghost use Rattle.followed_calls.specs.Followed.{FollowTokens};
ghost use Rattle.followed_calls.specs.Laws.{CoverTheirCourse, TellsBehind, WritesBehind};

/// Calls for pages, or for batches, each with the token that the reply before it told, up to the reply that tells none: where none is
/// refused, no batch is stopped by a failure, and no path comes or goes between them, their answers one behind the other tell all that is
/// behind the first token, the whole course where there was none, and each path once. On every tree, whatever was called before, an answer
/// tells paths behind its token alone, and writes there alone.
pub fn tokens_cover_their_course()
    ensures covered { (course : Course) (max : ℕ) (token : Option Path) (first : AnsweredCall) (more : List AnsweredCall)
        → FollowTokens course max token (first ∷ more) → CoverTheirCourse course token first more }
    ensures behind { (course : Course) (max : ℕ) (token : Path) (c : AnsweredCall) → KeepsPromise c → AsksFor course max (Some token) c.request.op
        → c.draft.reply.code ≡ None → TellsBehind course token c }
    ensures written { (course : Course) (max : ℕ) (token : Path) (c : AnsweredCall) → KeepsPromise c → AsksFor course max (Some token) c.request.op
        → WritesBehind token c }
{}
