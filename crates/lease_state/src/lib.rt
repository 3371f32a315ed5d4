//! Leases on files and directories: the states, the table of what each action and each write gives in each state, and
//! lease ids.
//!
//! A lease is a plain value and the moment comes with each call, so nothing here keeps time or takes memory. `act` and
//! `may_write` are the table, `state_at` is the state of a lease at a moment, and `after_write` is what a write that
//! passed leaves of it. `act_append` is what an append does, which may take, renew or give back a lease beside its write.
//! `read_lease_id` and `write_lease_id` are the texts of ids. A caller may rely on each of these calls being its
//! definition, at every lease and every moment up to `LAST_MOMENT`: the table stands in `specs/LeaseTable.antt`, when
//! each fault comes in `specs/LeaseFaults.antt`, appends and their faults in `specs/LeaseAppends.antt`, and the texts in
//! `specs/LeaseId.antt`. The laws of `laws` say in plain words what the table keeps, by the words of
//! `specs/LeaseLaws.antt`.
//!
//! The states and the actions are those of Microsoft's reference of the call Path - Lease of Azure Data Lake Storage
//! Gen2 and of Lease Blob; which code a refusal has is this project's own table.
#![tactic(auto)]

mod append;
pub mod laws;
mod lease;
mod lease_id;
mod table;

pub use append::act_append;
pub use lease::{AppendLease, LAST_MOMENT, Lease, LeaseAction, LeaseFault, State};
pub use lease_id::{read_lease_id, write_lease_id};
pub use table::{act, after_write, may_write, state_at};
