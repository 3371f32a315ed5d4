//! Laws on calls that follow one another: a listing or a batch that goes on by the token of the reply before.
//!
//! The evaluators of a listing of paths, of a listing of filesystems and of a recursive change of access answer a draft, with the promise
//! that every evaluator gives. A caller may rely on this: calls that follow one another by their tokens to the end tell each path of what
//! is gone through, once, while no path comes or goes; and on every tree an answer tells, and writes, what is behind its token alone.
//!
//! What a call is and what it asks for stands in `specs/Calls.antt`, what its answer tells in `specs/Told.antt`, calls that follow one
//! another in `specs/Followed.antt`, and the laws in `specs/Laws.antt`.
#![tactic(auto)]

mod laws;

pub use laws::tokens_cover_their_course;
