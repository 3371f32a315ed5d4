ghost use Rattle.std.specs.Prelude.{◌≡◌, IfOk};
ghost use Rattle.std.specs.Option.{option_copied};
ghost use Rattle.std.specs.FinMap as fin;
ghost use Rattle.acl_text.specs.AclMaps.{map_of};
ghost use Rattle.namespace_model.specs.Access.{acl_inherit, cut_to_mode, inherited_from, open_bits, passed_on, usual_mode, usual_umask};

use acl_text::{Acl, AclPair, ModeBits, Perm};
use namespace_model::Kind;
use std::alloc::{AllocError, Global};

// The mode of a new node where none is asked for.
fn usual_mode(kind: Kind) -> ModeBits
    ensures { result ≡ usual_mode kind }
{
    let bits = match kind {
        Kind::Directory => Perm::ALL,
        Kind::File => Perm::READ_WRITE,
    };
    ModeBits {
        sticky: false,
        owner: bits,
        group: bits,
        other: bits,
    }
}

// The umask where none is asked for.
fn usual_umask() -> ModeBits
    ensures { result ≡ usual_umask }
{
    ModeBits {
        sticky: false,
        owner: Perm::NONE,
        group: Perm::WRITE,
        other: Perm::ALL,
    }
}

// The bits that a umask leaves open.
fn open_bits(bits: Perm, umask: Perm) -> Perm
    ensures { result ≡ open_bits bits umask }
{
    bits.and(Perm::of(7 - umask.bits()))
}

// The bits of a mode that a umask leaves open.
fn open_mode(mode: &ModeBits, umask: &ModeBits) -> ModeBits
    ensures owner { result.owner ≡ open_bits mode.now.owner umask.now.owner }
    ensures group { result.group ≡ open_bits mode.now.group umask.now.group }
    ensures other { result.other ≡ open_bits mode.now.other umask.now.other }
{
    ModeBits {
        sticky: mode.sticky,
        owner: open_bits(mode.owner, umask.owner),
        group: open_bits(mode.group, umask.group),
        other: open_bits(mode.other, umask.other),
    }
}

// A default list with the owner, the mask or else the owning group, and the others cut down to a mode.
fn cut_to_mode(alloc: Global, acl: &Acl, mode: &ModeBits) -> Result<Acl, AllocError>
    ensures { IfOk result (λ cut. cut ≡ fin.entries (cut_to_mode (map_of acl.now) mode.now)) }
{
    let shown = acl.mode(mode.sticky);
    let bits = ModeBits {
        sticky: mode.sticky,
        owner: shown.owner.and(mode.owner),
        group: shown.group.and(mode.group),
        other: shown.other.and(mode.other),
    };
    acl.with_mode(alloc, &bits)
}

// The default list of a new node below one with this default list.
fn passed_on(alloc: Global, kind: Kind, acl: &Acl) -> Result<Option<Acl>, AllocError>
    ensures { IfOk result (λ passed. passed ≡ passed_on kind acl.now) }
{
    match kind {
        Kind::Directory => Ok(Some(acl.copy(alloc)?)),
        Kind::File => Ok(None),
    }
}

fn inherited_from(
    alloc: Global,
    default: &Option<Acl>,
    kind: Kind,
    mode: &ModeBits,
    umask: &ModeBits,
) -> Result<AclPair, AllocError>
    ensures { IfOk result (λ pair. pair ≡ inherited_from default.now kind mode.now umask.now) }
{
    match default {
        Some(acl) => Ok(AclPair {
            access: cut_to_mode(alloc, acl, mode)?,
            default: passed_on(alloc, kind, acl)?,
        }),
        None => AclPair::of_mode(alloc, &open_mode(mode, umask)),
    }
}

/// The lists and the sticky bit of a new node below a parent with these lists, with the permissions and the umask that were asked
/// for. Permissions that were not are 0777 for a directory and 0666 for a file, and a umask that was not is 0027.
///
/// Below a parent without a default list the node has the three entries of the permissions that the umask leaves open, and no default
/// list. Below one with a default list it has that one, with the owner, the mask (the owning group where there is none) and the others
/// cut down to the permissions, whatever the umask is; and a directory has the default list too. The sticky bit is that of the
/// permissions. The one error is want of memory.
pub fn inherit(
    alloc: Global,
    parent: &AclPair,
    kind: Kind,
    permissions: Option<&ModeBits>,
    umask: Option<&ModeBits>,
) -> Result<(AclPair, bool), AllocError>
    ensures { IfOk result (λ made. made ≡ acl_inherit parent.now kind (option_copied permissions.entry) (option_copied umask.entry)) }
{
    let mode = permissions.copied().unwrap_or(usual_mode(kind));
    let umask = umask.copied().unwrap_or(usual_umask());
    let lists = inherited_from(alloc, &parent.default, kind, &mode, &umask)?;
    Ok((lists, mode.sticky))
}
