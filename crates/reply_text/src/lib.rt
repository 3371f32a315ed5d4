//! The bytes of replies: what the service writes on a connection for each reply of the namespace, and before it closes one early.
//!
//! `spell` writes a reply before its number is known, with zeros in its place, and answers where the number stands; `fill` puts
//! the number there and takes no memory. Both together give the reply's text. `last_reply` writes the reply that ends a
//! connection. A caller may rely on each being its definition to the byte, and on nothing being written for want of memory.
//!
//! Definitions: specs/Lines.antt (the lines and their values), specs/ReplyText.antt (the whole reply, and which replies can be
//! spelled), specs/Slots.antt (where the number stands), specs/LastReply.antt (the last reply). proofs/Spellable.antt has lemmas
//! for callers, on which replies of the namespace can be spelled. The form is that of RFC 9112, the names of headers and codes
//! are those of Microsoft's REST reference, and the order of the lines is this service's own.
#![tactic(auto)]

mod body;
mod fault;
mod fields;
mod last;
mod lines;
mod refusal;
mod reply;
mod slots;
mod values;

pub use last::{Last, last_reply};
pub use reply::spell;
pub use slots::{Slots, fill};
