//! The outside of the service: where bytes come from, where they go, and what tells the time.
//!
//! A `Source`, a `Sink`, a `Clock` and a `Listener` have ghost meanings: the bytes that are still to come, the bytes that were
//! taken, the moments that will be answered, the connections that are still to come, each told or not, and a count of faults that
//! never falls. Code above is written against these traits alone. `BytesIn`, `BytesOut`, `FixedClock`, `ListClock` and `ConnList`
//! stand in memory and tell everything; `StdIn`, `StdOut`, `TcpIn`, `TcpOut`, `TcpList` and `SystemClock` are thin adapters over the
//! real things and tell only their faults and how many connections were given.
//!
//! Definitions: specs/Causes.antt (faults and their counts), specs/Accepts.antt (what a listener answers), specs/Moments.antt
//! (clocks), specs/Memory.antt (the devices in memory), specs/Crowded.antt (bytes with too many lines for a head).
#![tactic(auto)]

mod adapters;
mod clocks;
mod listeners;
mod memory;
mod outside;
mod tcp;

pub use adapters::{StdIn, StdOut, SystemClock};
pub use clocks::{FixedClock, ListClock};
pub use lease_state::LAST_MOMENT;
pub use listeners::{Accept, ConnList, Listener};
pub use memory::{BytesIn, BytesOut};
pub use outside::{Clock, Failed, Sink, Source};
pub use tcp::{SILENCE_SECONDS, TcpIn, TcpList, TcpOut};
