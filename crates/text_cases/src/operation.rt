// What a request asks, in words: the operation, its path, and each value that it gives.
use super::say::{say, say_number, say_whether};
use super::value::{
    say_acl, say_append, say_items, say_lease_action, say_mode, say_path, say_props, say_word,
};
use acl_text::{AclList, Id, ModeBits};
use head_text::{Props, Range};
use namespace_model::{BatchChange, Kind, Op};
use path_text::{Path, write_path};
use std::alloc::{AllocError, Global};

/// Appends the operation with its path, and each value that it has; or the code that refuses it.
pub fn say_op(alloc: Global, op: &Op, out: &mut Vec<u8>) -> Result<(), AllocError> {
    if let Op::Refused(code) = op {
        return say(out, code.name());
    }
    say(out, word_of(op))?;
    if let Some(path) = path_of(op) {
        say(out, " ")?;
        write_path(path, out)?;
    }
    say_values(alloc, op, out)
}

fn word_of(op: &Op) -> &'static str {
    match op {
        Op::ListFilesystems { .. } => "list filesystems",
        Op::CreateFilesystem { .. } => "create filesystem",
        Op::GetFilesystem { .. } => "get filesystem",
        Op::SetFilesystem { .. } => "set filesystem",
        Op::DeleteFilesystem { .. } => "delete filesystem",
        Op::List { .. } => "list",
        Op::Create { kind, .. } => kind_of(*kind),
        Op::Rename { .. } => "rename",
        Op::Read { .. } => "read",
        Op::GetProperties { .. } => "properties",
        Op::GetAccess { .. } => "access",
        Op::CheckAccess { .. } => "check access",
        Op::Append { .. } => "append",
        Op::Flush { .. } => "flush",
        Op::SetProperties { .. } => "set properties",
        Op::SetAccess { .. } => "set access",
        Op::SetAccessRecursive { change, .. } => change_of(change),
        Op::Lease { .. } => "lease",
        Op::Delete { .. } => "delete",
        Op::Refused(_) => "refused",
    }
}

fn kind_of(kind: Kind) -> &'static str {
    match kind {
        Kind::File => "create file",
        Kind::Directory => "create directory",
    }
}

fn change_of(change: &BatchChange) -> &'static str {
    match change {
        BatchChange::Set(_) => "set access below",
        BatchChange::Modify(_) => "modify access below",
        BatchChange::Remove(_) => "remove access below",
    }
}

fn path_of(op: &Op) -> Option<&Path> {
    match op {
        Op::CreateFilesystem { path, .. }
        | Op::GetFilesystem { path }
        | Op::SetFilesystem { path, .. }
        | Op::DeleteFilesystem { path }
        | Op::Create { path, .. }
        | Op::Rename { path, .. }
        | Op::Read { path, .. }
        | Op::GetProperties { path, .. }
        | Op::GetAccess { path }
        | Op::CheckAccess { path, .. }
        | Op::Append { path, .. }
        | Op::Flush { path, .. }
        | Op::SetProperties { path, .. }
        | Op::SetAccess { path, .. }
        | Op::SetAccessRecursive { path, .. }
        | Op::Lease { path, .. }
        | Op::Delete { path, .. } => Some(path),
        Op::List { dir, .. } => Some(dir),
        Op::ListFilesystems { .. } | Op::Refused(_) => None,
    }
}

fn say_values(alloc: Global, op: &Op, out: &mut Vec<u8>) -> Result<(), AllocError> {
    match op {
        Op::GetProperties { status, .. } => say_whether(out, *status, (", status", "")),
        Op::CheckAccess { want, .. } => say_word(", wants ", &want.text(), out),
        Op::Delete { recursive, .. } => say_whether(out, *recursive, (", recursive", "")),
        Op::CreateFilesystem { props, .. } => say_props(props.as_ref(), out),
        Op::SetFilesystem { props, .. } | Op::SetProperties { props, .. } => {
            say_props(Some(props), out)
        }
        Op::Create {
            permissions,
            umask,
            props,
            ..
        } => say_create(permissions.as_ref(), umask.as_ref(), props.as_ref(), out),
        Op::Rename { source, props, .. } => say_rename(source, props.as_ref(), out),
        Op::Read { range, .. } => say_range(alloc, range.as_ref(), out),
        Op::Lease { action, .. } => say_lease_action(alloc, action, out),
        _ => say_more_values(alloc, op, out),
    }
}

fn say_more_values(alloc: Global, op: &Op, out: &mut Vec<u8>) -> Result<(), AllocError> {
    match op {
        Op::ListFilesystems { prefix, token, max } => {
            say_word(", prefix ", prefix.bytes(), out)?;
            say_page(alloc, token.as_ref(), *max, out)
        }
        Op::List {
            recursive,
            token,
            max,
            ..
        } => {
            say_whether(out, *recursive, (", recursive", ""))?;
            say_page(alloc, token.as_ref(), *max, out)
        }
        Op::Append {
            position,
            flush,
            retain,
            action,
            ..
        } => {
            say_position(alloc, *position, *flush, *retain, out)?;
            say_append(alloc, action, out)
        }
        Op::Flush {
            position,
            retain,
            ..
        } => say_position(alloc, *position, false, *retain, out),
        _ => say_access(alloc, op, out),
    }
}

fn say_access(alloc: Global, op: &Op, out: &mut Vec<u8>) -> Result<(), AllocError> {
    match op {
        Op::SetAccess {
            owner,
            group,
            permissions,
            acl,
            ..
        } => {
            say_id(", owner ", owner.as_ref(), out)?;
            say_id(", group ", group.as_ref(), out)?;
            say_mode(", permissions ", permissions.as_ref(), out)?;
            say_given_acl(acl.as_ref(), out)
        }
        Op::SetAccessRecursive {
            change,
            token,
            max,
            force,
            ..
        } => {
            say_change(change, out)?;
            say_page(alloc, token.as_ref(), *max, out)?;
            say_whether(out, *force, (", force", ""))
        }
        _ => Ok(()),
    }
}

fn say_create(
    permissions: Option<&ModeBits>,
    umask: Option<&ModeBits>,
    props: Option<&Props>,
    out: &mut Vec<u8>,
) -> Result<(), AllocError> {
    say_mode(", permissions ", permissions, out)?;
    say_mode(", umask ", umask, out)?;
    say_props(props, out)
}

fn say_rename(source: &Path, props: Option<&Props>, out: &mut Vec<u8>) -> Result<(), AllocError> {
    say_path(", from ", source, out)?;
    say_props(props, out)
}

// The first byte and the last one, where there is one.
fn say_range(alloc: Global, range: Option<&Range>, out: &mut Vec<u8>) -> Result<(), AllocError> {
    match range {
        Some(range) => {
            say(out, ", bytes ")?;
            say_number(alloc, out, Some(range.from))?;
            say(out, " to ")?;
            say_number(alloc, out, range.to)
        }
        None => Ok(()),
    }
}

// Behind which path the page begins, and how many it has at most.
fn say_page(
    alloc: Global,
    token: Option<&Path>,
    max: u32,
    out: &mut Vec<u8>,
) -> Result<(), AllocError> {
    if let Some(path) = token {
        say_path(", behind ", path, out)?;
    }
    say(out, ", most ")?;
    say_number(alloc, out, Some(u64::from(max)))
}

fn say_position(
    alloc: Global,
    position: u64,
    flush: bool,
    retain: bool,
    out: &mut Vec<u8>,
) -> Result<(), AllocError> {
    say(out, ", at ")?;
    say_number(alloc, out, Some(position))?;
    say_whether(out, flush, (", flush", ""))?;
    say_whether(out, retain, (", retain", ""))
}

fn say_id(word: &str, id: Option<&Id>, out: &mut Vec<u8>) -> Result<(), AllocError> {
    match id {
        Some(id) => say_word(word, id.bytes(), out),
        None => Ok(()),
    }
}

fn say_given_acl(acl: Option<&AclList>, out: &mut Vec<u8>) -> Result<(), AllocError> {
    match acl {
        Some(acl) => say_acl(acl.entries(), out),
        None => Ok(()),
    }
}

fn say_change(change: &BatchChange, out: &mut Vec<u8>) -> Result<(), AllocError> {
    match change {
        BatchChange::Set(list) | BatchChange::Modify(list) => say_acl(list.entries(), out),
        BatchChange::Remove(list) => say_items(list.entries(), out),
    }
}
