// Tables of who may do what, and of what new nodes take from the directory above.
use super::acl::{pair_of, say_pair};
use super::say::{say, say_whether, split};
use acl_check::{check, inherit, may_chgrp, may_chmod, may_chown, sticky_allows};
use acl_text::{AclPair, AclStop, Id, ModeBits, Perm, read_id, read_permissions, read_umask};
use namespace_model::{Caller, IdList, Kind};
use std::alloc::{AllocError, Global};

/// Appends the answer, and answers whether there is a table of this name.
pub fn answer(
    alloc: Global,
    name: &str,
    first: &[u8],
    second: &[u8],
    out: &mut Vec<u8>,
) -> Result<bool, AllocError> {
    match name {
        "checks" => access(alloc, first, second, out)?,
        "sticky" => sticky(alloc, first, second, out)?,
        "owners" => owner(alloc, first, second, out)?,
        "inherits" => inherited(alloc, first, second, out)?,
        "base_lists" => base(alloc, first, out)?,
        _ => return Ok(false),
    }
    Ok(true)
}

// An id and the ids of groups, with spaces between.
fn caller_of(alloc: Global, text: &[u8]) -> Result<Option<Caller>, AllocError> {
    let (id, groups) = split(text);
    let groups = groups_of(alloc, groups)?;
    match read_id(alloc, id)? {
        Some(id) => Ok(Some(Caller {
            id,
            groups: IdList::new(groups),
        })),
        None => Ok(None),
    }
}

fn groups_of(alloc: Global, text: &[u8]) -> Result<Vec<Id>, AllocError> {
    let mut groups = Vec::new(alloc);
    for word in text.split(|byte| *byte == b' ') {
        if let Some(id) = read_id(alloc, word)? {
            groups.push(id)?;
        }
    }
    Ok(groups)
}

// Two ids.
fn ids_of(alloc: Global, text: &[u8]) -> Result<Option<(Id, Id)>, AllocError> {
    let (first, second) = split(text);
    match (read_id(alloc, first)?, read_id(alloc, second)?) {
        (Some(first), Some(second)) => Ok(Some((first, second))),
        _ => Ok(None),
    }
}

// On a node of alice's whose group is staff: a list, and the wanted bits as one digit with the caller and its groups.
fn access(alloc: Global, list: &[u8], asked: &[u8], out: &mut Vec<u8>) -> Result<(), AllocError> {
    let (want, caller) = split(asked);
    match (
        pair_of(alloc, list),
        caller_of(alloc, caller)?,
        want_of(want),
    ) {
        (Ok(pair), Some(caller), Some(want)) => say_access(alloc, &pair, &caller, want, out),
        _ => say(out, "no list or no caller"),
    }
}

fn want_of(text: &[u8]) -> Option<Perm> {
    let (digit, _) = text.split_first()?;
    Perm::new(digit.saturating_sub(b'0'))
}

fn say_access(
    alloc: Global,
    pair: &AclPair,
    caller: &Caller,
    want: Perm,
    out: &mut Vec<u8>,
) -> Result<(), AllocError> {
    let Some((owner, group)) = ids_of(alloc, b"alice staff")? else {
        return say(out, "no ids");
    };
    match check(&pair.access, &owner, &group, caller, want) {
        Ok(()) => say(out, "allowed"),
        Err(refusal) => {
            let bits = refusal.have.bits();
            let rule = refusal.rule;
            say(out, format!(in alloc; "{rule:?} {bits}")?.as_str())
        }
    }
}

// The owners of a directory and of a child in it, and a caller; the directory has the sticky bit but where `plain` stands first.
fn sticky(
    alloc: Global,
    owners: &[u8],
    caller: &[u8],
    out: &mut Vec<u8>,
) -> Result<(), AllocError> {
    let (word, ids) = split(owners);
    match (ids_of(alloc, ids)?, caller_of(alloc, caller)?) {
        (Some((dir, child)), Some(caller)) => say_whether(
            out,
            sticky_allows(word == b"sticky".as_slice(), &dir, &child, &caller),
            ("allowed", "denied"),
        ),
        _ => say(out, "no ids"),
    }
}

// The owner and the group of a node, and what is asked: chmod, chown and the owner, or chgrp and the group, with the caller and its
// groups behind.
fn owner(alloc: Global, ids: &[u8], asked: &[u8], out: &mut Vec<u8>) -> Result<(), AllocError> {
    let (word, rest) = split(asked);
    let (new, caller) = split(rest);
    match (
        ids_of(alloc, ids)?,
        read_id(alloc, new)?,
        caller_of(alloc, caller)?,
    ) {
        (Some((owner, group)), Some(new), Some(caller)) => say_whether(
            out,
            may(word, (&owner, &group), &new, &caller),
            ("allowed", "denied"),
        ),
        _ => say(out, "no ids"),
    }
}

fn may(word: &[u8], (owner, group): (&Id, &Id), new: &Id, caller: &Caller) -> bool {
    match word {
        b"chmod" => may_chmod(owner, caller),
        b"chown" => may_chown(owner, new, caller),
        _ => may_chgrp(owner, group, new, caller),
    }
}

// The lists of the directory above, and the kind, the permissions and the umask of a new node, or - where none are asked for.
fn inherited(
    alloc: Global,
    list: &[u8],
    asked: &[u8],
    out: &mut Vec<u8>,
) -> Result<(), AllocError> {
    let (kind, rest) = split(asked);
    let (permissions, umask) = split(rest);
    let kind = if kind == b"file".as_slice() {
        Kind::File
    } else {
        Kind::Directory
    };
    let permissions = read_permissions(permissions).ok();
    let umask = read_umask(umask).ok();
    match pair_of(alloc, list) {
        Ok(above) => say_made(
            alloc,
            inherit(alloc, &above, kind, permissions.as_ref(), umask.as_ref()),
            out,
        ),
        Err(_) => say(out, "no list"),
    }
}

fn say_made(
    alloc: Global,
    made: Result<(AclPair, bool), AllocError>,
    out: &mut Vec<u8>,
) -> Result<(), AllocError> {
    let (pair, is_sticky) = made?;
    say_pair(alloc, Ok(pair), out)?;
    say_whether(out, is_sticky, (" sticky", ""))
}

// The lists of a mode alone.
fn base(alloc: Global, mode: &[u8], out: &mut Vec<u8>) -> Result<(), AllocError> {
    match read_permissions(mode).ok() {
        Some(mode) => say_base(alloc, &mode, out),
        None => say(out, "no mode"),
    }
}

fn say_base(alloc: Global, mode: &ModeBits, out: &mut Vec<u8>) -> Result<(), AllocError> {
    say_pair(
        alloc,
        AclPair::of_mode(alloc, mode).map_err(|_| AclStop::NoMemory),
        out,
    )
}
