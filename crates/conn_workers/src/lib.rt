//! Workers that serve connections in threads.
//!
//! `serve_connection` serves one connection by a pass of the service; other passes may put their entries between its own. `serve_all` runs
//! workers in threads, which take connections from a queue until none is left. A caller may rely on this: `serve_connection` carries the
//! serving theorem of `serving` for the whole journal, and each worker's tally says how many replies of its pass's entries count as what.
//!
//! Definitions: specs/Desks.antt (one connection by a pass), specs/Workers.antt (connections one after the other).
#![tactic(auto)]

mod connection;
mod counted;
mod desk;
mod workers;

pub use connection::{Closed, serve_connection};
pub use counted::CountedPass;
pub use workers::{Worker, serve_all};
