use head_text::Conditions;
use namespace_model::{Caller, Op};

/// What a request asks.
#[derive(Drop)]
pub struct Asks {
    pub op: Op,
    /// What it asks of the node before.
    pub cond: Conditions,
    /// The lease id that it gives.
    pub lease: Option<u128>,
    /// The lease id that it gives for the source of a rename.
    pub source_lease: Option<u128>,
}

/// What a request asks, and who asks it: none where it was refused before the caller was read.
#[derive(Drop)]
pub struct Asked {
    pub caller: Option<Caller>,
    pub asks: Asks,
}
