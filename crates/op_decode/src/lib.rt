//! Requests out of raw ones: what a complete HTTP request asks of the service.
//!
//! `decode` answers the one request that a raw one is; a malformed one is a refusal with the code of the first check
//! that fails. A caller may rely on this: whatever is answered is sound, which a step of the namespace needs; and the
//! one error is want of memory.
//!
//! Definitions: specs/Decoded.antt (the checks in their order), specs/Targets.antt, specs/Callers.antt,
//! specs/Methods.antt, specs/Operations.antt (the table of operations) and specs/Rows.antt (what each takes), with a
//! definition for each row in specs/Filesystems.antt, specs/Listings.antt, specs/Creates.antt, specs/Renames.antt,
//! specs/Data.antt, specs/Nodes.antt, specs/Access.antt, specs/Batches.antt and specs/Leases.antt; specs/Orders.antt
//! (the first that fails decides), specs/Parameters.antt, specs/HeaderValues.antt, specs/AclTexts.antt,
//! specs/ConditionHeaders.antt, specs/Connections.antt and specs/Headers.antt (what rows read); and specs/Laws.antt
//! (what the laws say).
#![tactic(auto)]

mod access;
mod acl_texts;
mod asked;
mod batches;
mod callers;
mod conditions;
mod connection;
mod creates;
mod data;
mod filesystems;
mod headers;
mod laws;
mod leases;
mod listings;
mod method;
mod nodes;
mod operation;
mod parameters;
mod renames;
mod rows;
mod steps;
mod stop;
mod values;

pub use laws::{
    a_taken_request_passes_every_check, checks_go_in_their_order, every_decoded_request_is_sound,
    names_of_headers_have_no_case, other_headers_are_ignored, the_first_of_a_name_counts,
};
pub use steps::decode;
