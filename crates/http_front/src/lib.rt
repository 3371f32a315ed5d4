//! Requests out of bytes: what stands at the front of a stream, one HTTP/1.1 request after the other.
//!
//! A `Reader` takes bytes from a source and answers the next complete request, the end of the input, or a fault with its cause.
//! A caller may rely on this: an answer speaks of the bytes alone, never of the pieces in which they came; a request is handed
//! out exactly once and in its order, with its whole body, and no byte behind it is lost; a call takes no more than a head may have
//! and then the missing bytes of its body; behind a fault or the end nothing is kept; and bytes split into complete requests in one
//! way only.
//!
//! Definitions: specs/Requests.antt (what a complete request is, and how bytes split into requests), specs/Framings.antt (what headers
//! say of the length of a body), specs/Reads.antt (what each answer says, and the causes of the faults), specs/Lines.antt (lines of a
//! head). Heads are those of the crate `httparse`.
#![tactic(auto)]

mod answers;
mod body;
mod find;
mod framing;
mod laws;
mod limits;
mod lines;
mod raw;
mod reader;
mod shared_bodies;
mod window;

pub use answers::{BadHttp, FrontFault, Next};
pub use laws::{complete_requests_meet_no_fault, requests_are_unique};
pub use limits::{BODY_MOST, HEAD_MOST, HEADERS_MOST};
pub use raw::Raw;
pub use reader::Reader;
