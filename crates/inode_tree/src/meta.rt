ghost use Rattle.std.specs.Prelude.{◌≡◌, IfOk};

use acl_text::{AclPair, Id};
use head_text::Props;
use lease_state::Lease;
use namespace_model::Kind;
use std::alloc::{AllocError, Global};

/// What is kept of a node besides its children or its bytes.
#[derive(Drop)]
pub struct Meta {
    pub kind: Kind,
    pub owner: Id,
    pub group: Id,
    /// The access control list, and the default one that new children take, where there is one.
    pub acl: AclPair,
    pub sticky: bool,
    /// The moment of the entry that made the node or last stamped it, in milliseconds since 1970.
    pub moment: u64,
    /// The number of that entry, 0 before any entry.
    pub number: u64,
    pub props: Props,
    pub lease: Lease,
}

impl Meta {
    /// Another value that is equal. The one error is want of memory.
    pub fn copy(&self, alloc: Global) -> Result<Meta, AllocError>
        ensures { IfOk result (λ meta. meta ≡ self.now) }
    {
        Ok(Meta {
            kind: self.kind,
            owner: self.owner.copy(alloc)?,
            group: self.group.copy(alloc)?,
            acl: self.acl.copy(alloc)?,
            sticky: self.sticky,
            moment: self.moment,
            number: self.number,
            props: self.props.copy(alloc)?,
            lease: self.lease,
        })
    }
}
