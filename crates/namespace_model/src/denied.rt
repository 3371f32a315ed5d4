ghost use Rattle.std.specs.Prelude.{◌≡◌, IfOk};

use acl_text::Perm;
use path_text::Path;
use std::alloc::{AllocError, Global};

/// The rule by which access is denied, after the access control model that Microsoft documents for ADLS Gen2.
#[derive(Clone, Copy, Debug, PartialEq, Eq)]
pub enum Rule {
    /// The owner is judged by its entry alone.
    Owner,
    /// A named user is judged by its entry and the mask.
    NamedUser,
    /// Whoever is neither, and whom no group allows, is judged by the entry of the others.
    Other,
    /// In a sticky directory a child is deleted, renamed and overwritten by its owner, the directory's owner and the superuser
    /// alone.
    Sticky,
    /// An access control list is set by the owner and the superuser alone.
    AclOwner,
    /// Another owner is set by the superuser alone.
    UserOwner,
    /// Another group is set by the superuser, and by an owner that belongs to it.
    GroupOwner,
    /// Calls on filesystems are for the superuser alone.
    SuperuserOnly,
}

/// How a check of a node's permissions came to deny: by which rule, and the bits that were compared last.
#[derive(Clone, Copy, Debug, PartialEq, Eq)]
pub struct Refusal {
    pub rule: Rule,
    pub have: Perm,
}

/// An access that was denied: by which rule, at which path, what was wanted and what the deciding entries give. For the rules
/// other than the owner's, the named user's and the others' no bits are compared, and both are none.
#[derive(Drop)]
pub struct Denied {
    pub rule: Rule,
    pub at: Path,
    pub want: Perm,
    pub have: Perm,
}

impl Denied {
    /// An equal denial. The one error is want of memory.
    pub fn copy(&self, alloc: Global) -> Result<Denied, AllocError>
        ensures { IfOk result (λ denied. denied ≡ self.now) }
    {
        Ok(Denied {
            rule: self.rule,
            at: self.at.copy(alloc)?,
            want: self.want,
            have: self.have,
        })
    }
}
