//! The service: the namespace in a store of 64 stripes, to which passes submit requests from several threads.
//!
//! A submit works its request out on the stripes that its pass holds, at first none, takes a stripe that is lacking, in ascending order,
//! and begins anew, at most 129 times; then it commits the entry under exactly the locks of what it reads and writes. A caller may rely on
//! this: a submit that succeeds adds one entry to the journal, with the clock's answer of its last round as its moment, and answers the
//! text that the run of the journal gives at this place, and the stripes of what was written and read; one that is refused adds none, with
//! its cause; and behind each nothing is held.
//!
//! What one submit says stands in `specs/Submits.antt`, its rounds in `specs/Rounds.antt` and `specs/RoundEnds.antt`, and the view over
//! what is held in `specs/Looks.antt`.
#![tactic(auto)]

mod asked;
mod commit;
mod held_nodes;
mod prepare;
mod round;
mod rounds;
mod service;
mod submit;

pub use asked::Asked;
pub use held_nodes::HeldNodes;
pub use service::Service;
