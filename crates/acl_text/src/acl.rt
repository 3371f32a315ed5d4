ghost use Rattle.std.specs.Prelude.{◌≡◌, Some, IfOk};
ghost use Rattle.std.specs.FinMap.{find};
ghost use Rattle.acl_text.specs.Whos.{who_cmp};
ghost use Rattle.acl_text.specs.Acls.{IsAcl, IsAclMap};
ghost use Rattle.std.specs.FinMap as fin;
ghost use Rattle.acl_text.specs.AclMaps.{map_of};
ghost use Rattle.acl_text.specs.AclWriting.{access_bits};
ghost use Rattle.acl_text.specs.AclChanges.{group_holder, mode_map, mode_set, pair_of_mode};
ghost use Rattle.acl_text.specs.declared.who.Who.TheVariants as who;
ghost use Rattle.acl_text.specs.declared.acl.AclStop.TheVariants.{NoMemory};

use crate::entries::{Entries, find, find_user};
use crate::id::Id;
use crate::perm::{ModeBits, Perm};
use crate::who::Who;
use std::alloc::{AllocError, AllocFailed, Global};
use std::marker::Model;
use thiserror::Error;

/// How many entries an access control list has at most, the mask counted.
pub const ENTRIES_MAX: usize = 32;

/// An access control list: what the owner, the owning group and the others may do, what named users and groups may do, and the
/// mask. A contract sees the list of its entries in printed order.
///
/// Each list has an entry of the owner, of the owning group and of the others, each entry at most once, a mask wherever it has a
/// named user or group, and at most 32 entries.
#[derive(Debug, Drop)]
pub struct Acl {
    pub(crate) map: Entries,
}

impl Model for Acl {
    ghost use Rattle.std.specs.Prelude.{List, ℕ};
    ghost use Rattle.std.specs.FinMap as fin;
    ghost use Rattle.acl_text.specs.declared.who.Who.{Who};
    ghost use Rattle.acl_text.specs.Acls.{IsAclMap};

    ghost Value = { List (Who × ℕ) };

    ghost view = { λ a. fin.entries a.map };

    ghost invariant = { λ a. IsAclMap a.map };
}

impl Acl {
    /// The entries in printed order.
    pub fn entries(&self) -> &[(Who, Perm)]
        ensures entries { result.now ≡ self.now }
        ensures acl { IsAcl self.now }
    {
        self.map.as_slice()
    }

    /// What the entry of one gives, where there is one.
    pub fn get(&self, who: &Who) -> Option<Perm>
        ensures value { result ≡ find who_cmp who.now self.now }
        ensures acl { IsAcl self.now }
    {
        find(self.entries(), who)
    }

    /// What the entry of the owner gives.
    pub fn owner(&self) -> Perm
        ensures { find who_cmp who.Owner self.now ≡ Some result }
    {
        self.get(&Who::Owner).unwrap()
    }

    /// What the entry of the owning group gives.
    pub fn owning_group(&self) -> Perm
        ensures { find who_cmp who.OwningGroup self.now ≡ Some result }
    {
        self.get(&Who::OwningGroup).unwrap()
    }

    /// What the entry of the others gives.
    pub fn other(&self) -> Perm
        ensures { find who_cmp who.Other self.now ≡ Some result }
    {
        self.get(&Who::Other).unwrap()
    }

    /// The mask, where there is one.
    pub fn mask(&self) -> Option<Perm>
        ensures { result ≡ find who_cmp who.Mask self.now }
    {
        self.get(&Who::Mask)
    }

    /// What the entry of a named user gives, where there is one.
    pub fn user(&self, id: &Id) -> Option<Perm>
        ensures { result ≡ find who_cmp (who.User id.now) self.now }
    {
        find_user(self.entries(), id)
    }

    /// The mode that the list shows: what the owner may do, what the mask gives where there is one and else the owning group, and what
    /// the others may do, with a sticky bit beside them.
    pub fn mode(&self, sticky: bool) -> ModeBits
        ensures mode { result ≡ access_bits sticky self.now }
        ensures acl { IsAcl self.now }
    {
        ModeBits {
            sticky,
            owner: self.owner(),
            group: self.get(&Who::Mask).unwrap_or(self.owning_group()),
            other: self.other(),
        }
    }

    /// The list with the permissions of a mode: of the owner, of the mask where there is one and else of the owning group, and of the
    /// others. The one error is want of memory.
    pub fn with_mode(&self, alloc: Global, bits: &ModeBits) -> Result<Acl, AllocError>
        ensures { IfOk result (λ acl. acl ≡ fin.entries (mode_set bits.now (map_of self.now))) }
    {
        let map = mode_set(self.copied_map(alloc)?, bits)?;
        Ok(Acl { map })
    }

    // The entries as a map of their own.
    pub(crate) fn copied_map(&self, alloc: Global) -> Result<Entries, AllocError>
        ensures map { IfOk result (λ map. map ≡ map_of self.now) }
        ensures acl { IfOk result IsAclMap }
    {
        self.map.copy(alloc)
    }

    /// Another list that is equal. The one error is want of memory.
    pub fn copy(&self, alloc: Global) -> Result<Acl, AllocError>
        ensures { IfOk result (λ acl. acl ≡ self.now) }
    {
        Ok(Acl {
            map: self.map.copy(alloc)?,
        })
    }
}

/// The access control list of a file or a directory, and the default one that new children of a directory take.
#[derive(Debug, Drop)]
pub struct AclPair {
    /// The access ACL.
    pub access: Acl,
    /// The default ACL, where there is one.
    pub default: Option<Acl>,
}

impl AclPair {
    /// The pair that a mode alone gives: an access ACL of the three base entries, and no default ACL. The one error is want of memory.
    pub fn of_mode(alloc: Global, bits: &ModeBits) -> Result<AclPair, AllocError>
        ensures { IfOk result (λ pair. pair ≡ pair_of_mode bits.now) }
    {
        let map = mode_map(alloc, bits)?;
        Ok(AclPair {
            access: Acl { map },
            default: None,
        })
    }

    /// Another pair that is equal. The one error is want of memory.
    pub fn copy(&self, alloc: Global) -> Result<AclPair, AllocError>
        ensures { IfOk result (λ pair. pair ≡ self.now) }
    {
        Ok(AclPair {
            access: self.access.copy(alloc)?,
            default: copied_default(alloc, &self.default)?,
        })
    }
}

// The three base entries of a mode.
fn mode_map(alloc: Global, bits: &ModeBits) -> Result<Entries, AllocError>
    ensures { IfOk result (λ map. map ≡ mode_map bits.now) }
{
    let mut map = Entries::new(alloc);
    map.put(Who::Owner, bits.owner)?;
    map.put(Who::OwningGroup, bits.group)?;
    map.put(Who::Other, bits.other)?;
    Ok(map)
}

// Whose entry the group bits of a mode are.
fn group_holder(map: &Entries) -> Who
    ensures { result ≡ group_holder map.now }
{
    if map.get(&Who::Mask).is_some() {
        Who::Mask
    } else {
        Who::OwningGroup
    }
}

fn mode_set(from: Entries, bits: &ModeBits) -> Result<Entries, AllocError>
    ensures { IfOk result (λ map. map ≡ mode_set bits.now from) }
{
    let holder = group_holder(&from);
    let mut map = from;
    map.put(Who::Owner, bits.owner)?;
    map.put(holder, bits.group)?;
    map.put(Who::Other, bits.other)?;
    Ok(map)
}

pub(crate) fn copied_default(
    alloc: Global,
    default: &Option<Acl>,
) -> Result<Option<Acl>, AllocError>
    ensures { IfOk result (λ copied. copied ≡ default.now) }
{
    match default {
        Some(acl) => Ok(Some(acl.copy(alloc)?)),
        None => Ok(None),
    }
}

/// Why a text or a list is refused.
#[derive(Debug, PartialEq, Eq, Drop, Error)]
pub enum AclFault {
    /// The first item, counted from 0, that is not of the grammar.
    #[error("Item {0} of the access control list cannot be read.")]
    BadEntry(usize),
    /// The first item, counted from 0, whose scope and who stood before.
    #[error("Item {0} of the access control list stands twice.")]
    Twice(usize),
    /// The first of the owner, the owning group and the others that has no entry in the access scope.
    #[error("The access control list misses an entry of the owner, the owning group or the others.")]
    Missing(Who),
    /// Over 64 items in a text, or over 32 entries in a scope of a result.
    #[error("The access control list has too many entries.")]
    TooMany,
    /// A text of four bytes that is no octal mode.
    #[error("The octal permissions cannot be read.")]
    BadOctal,
    /// Any other text that is no mode.
    #[error("The symbolic permissions cannot be read.")]
    BadSymbolic,
}

impl AclFault {
    /// Another fault that is equal. The one error is want of memory.
    pub fn copy(&self, alloc: Global) -> Result<AclFault, AllocError>
        ensures { IfOk result (λ fault. fault ≡ self.now) }
    {
        Ok(match self {
            AclFault::BadEntry(at) => AclFault::BadEntry(*at),
            AclFault::Twice(at) => AclFault::Twice(*at),
            AclFault::Missing(who) => AclFault::Missing(who.copy(alloc)?),
            AclFault::TooMany => AclFault::TooMany,
            AclFault::BadOctal => AclFault::BadOctal,
            AclFault::BadSymbolic => AclFault::BadSymbolic,
        })
    }
}

/// Why a call on access control lists gave nothing.
#[derive(Debug, PartialEq, Eq, Drop, Error)]
pub enum AclStop {
    /// The text or the list is refused.
    #[error("{0}")]
    Fault(AclFault),
    /// There was no memory.
    #[error("There was no memory.")]
    NoMemory,
}

impl AclStop {
    /// Another value that is equal. The one error is want of memory.
    pub fn copy(&self, alloc: Global) -> Result<AclStop, AllocError>
        ensures { IfOk result (λ stop. stop ≡ self.now) }
    {
        Ok(match self {
            AclStop::Fault(fault) => AclStop::Fault(fault.copy(alloc)?),
            AclStop::NoMemory => AclStop::NoMemory,
        })
    }
}

impl From<AllocError> for AclStop {
    ghost from_gives = { λ _ e. e ≡ NoMemory };

    fn from(_error: AllocError) -> AclStop {
        AclStop::NoMemory
    }
}

impl<T: Drop> From<AllocFailed<T>> for AclStop {
    ghost from_gives = { λ _ e. e ≡ NoMemory };

    fn from(_failed: AllocFailed<T>) -> AclStop {
        AclStop::NoMemory
    }
}
