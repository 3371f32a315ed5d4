ghost use Rattle.std.specs.Prelude.{◌≡◌, IfOk};
ghost use Rattle.namespace_model.specs.declared.op.Op.TheVariants as op;

use super::copying::{copy_acl, copy_id, copy_path, copy_props};
use super::op::{BatchChange, Kind, Op};
use acl_text::{AclList, Id, ModeBits};
use file_data::Piece;
use head_text::Props;
use path_text::Path;
use std::alloc::{AllocError, Global};

impl Op {
    /// An equal operation. The one error is want of memory.
    pub fn copy(&self, alloc: Global) -> Result<Op, AllocError>
        ensures { IfOk result (λ op. op ≡ self.now) }
    {
        match self {
            Op::ListFilesystems { prefix, token, max } => {
                list_filesystems(alloc, prefix, token, *max)
            }
            Op::CreateFilesystem { path, props } => create_filesystem(alloc, path, props),
            Op::GetFilesystem { path } => Ok(Op::GetFilesystem {
                path: path.copy(alloc)?,
            }),
            Op::SetFilesystem { path, props } => set_filesystem(alloc, path, props),
            Op::DeleteFilesystem { path } => Ok(Op::DeleteFilesystem {
                path: path.copy(alloc)?,
            }),
            Op::List {
                dir,
                recursive,
                token,
                max,
            } => list(alloc, dir, *recursive, token, *max),
            Op::Create {
                path,
                kind,
                permissions,
                umask,
                props,
            } => create(alloc, path, *kind, *permissions, *umask, props),
            Op::Rename {
                path,
                source,
                props,
            } => rename(alloc, path, source, props),
            Op::Read { path, range } => Ok(Op::Read {
                path: path.copy(alloc)?,
                range: *range,
            }),
            Op::GetProperties { path, status } => Ok(Op::GetProperties {
                path: path.copy(alloc)?,
                status: *status,
            }),
            Op::GetAccess { path } => Ok(Op::GetAccess {
                path: path.copy(alloc)?,
            }),
            Op::CheckAccess { path, want } => Ok(Op::CheckAccess {
                path: path.copy(alloc)?,
                want: *want,
            }),
            Op::Append {
                path,
                position,
                flush,
                retain,
                action,
            } => Ok(Op::Append {
                path: path.copy(alloc)?,
                position: *position,
                flush: *flush,
                retain: *retain,
                action: *action,
            }),
            Op::Flush {
                path,
                position,
                retain,
            } => Ok(Op::Flush {
                path: path.copy(alloc)?,
                position: *position,
                retain: *retain,
            }),
            Op::SetProperties { path, props } => set_properties(alloc, path, props),
            Op::SetAccess {
                path,
                owner,
                group,
                permissions,
                acl,
            } => set_access(alloc, path, owner, group, *permissions, acl),
            Op::SetAccessRecursive {
                path,
                change,
                token,
                max,
                force,
            } => set_access_recursive(alloc, path, change, token, *max, *force),
            Op::Lease { path, action } => Ok(Op::Lease {
                path: path.copy(alloc)?,
                action: *action,
            }),
            Op::Delete { path, recursive } => Ok(Op::Delete {
                path: path.copy(alloc)?,
                recursive: *recursive,
            }),
            Op::Refused(code) => Ok(Op::Refused(*code)),
        }
    }
}

fn list_filesystems(
    alloc: Global,
    prefix: &Piece,
    token: &Option<Path>,
    max: u32,
) -> Result<Op, AllocError>
    ensures { IfOk result (λ copied. copied ≡ op.ListFilesystems prefix.now token.now max) }
{
    Ok(Op::ListFilesystems {
        prefix: prefix.copy(alloc)?,
        token: copy_path(alloc, token)?,
        max,
    })
}

fn create_filesystem(alloc: Global, path: &Path, props: &Option<Props>) -> Result<Op, AllocError>
    ensures { IfOk result (λ copied. copied ≡ op.CreateFilesystem path.now props.now) }
{
    Ok(Op::CreateFilesystem {
        path: path.copy(alloc)?,
        props: copy_props(alloc, props)?,
    })
}

fn set_filesystem(alloc: Global, path: &Path, props: &Props) -> Result<Op, AllocError>
    ensures { IfOk result (λ copied. copied ≡ op.SetFilesystem path.now props.now) }
{
    Ok(Op::SetFilesystem {
        path: path.copy(alloc)?,
        props: props.copy(alloc)?,
    })
}

fn list(
    alloc: Global,
    dir: &Path,
    recursive: bool,
    token: &Option<Path>,
    max: u32,
) -> Result<Op, AllocError>
    ensures { IfOk result (λ copied. copied ≡ op.List dir.now recursive token.now max) }
{
    Ok(Op::List {
        dir: dir.copy(alloc)?,
        recursive,
        token: copy_path(alloc, token)?,
        max,
    })
}

fn create(
    alloc: Global,
    path: &Path,
    kind: Kind,
    permissions: Option<ModeBits>,
    umask: Option<ModeBits>,
    props: &Option<Props>,
) -> Result<Op, AllocError>
    ensures { IfOk result (λ copied. copied ≡ op.Create path.now kind permissions umask props.now) }
{
    Ok(Op::Create {
        path: path.copy(alloc)?,
        kind,
        permissions,
        umask,
        props: copy_props(alloc, props)?,
    })
}

fn rename(
    alloc: Global,
    path: &Path,
    source: &Path,
    props: &Option<Props>,
) -> Result<Op, AllocError>
    ensures { IfOk result (λ copied. copied ≡ op.Rename path.now source.now props.now) }
{
    Ok(Op::Rename {
        path: path.copy(alloc)?,
        source: source.copy(alloc)?,
        props: copy_props(alloc, props)?,
    })
}

fn set_properties(alloc: Global, path: &Path, props: &Props) -> Result<Op, AllocError>
    ensures { IfOk result (λ copied. copied ≡ op.SetProperties path.now props.now) }
{
    Ok(Op::SetProperties {
        path: path.copy(alloc)?,
        props: props.copy(alloc)?,
    })
}

fn set_access(
    alloc: Global,
    path: &Path,
    owner: &Option<Id>,
    group: &Option<Id>,
    permissions: Option<ModeBits>,
    acl: &Option<AclList>,
) -> Result<Op, AllocError>
    ensures { IfOk result (λ copied. copied ≡ op.SetAccess path.now owner.now group.now permissions acl.now) }
{
    Ok(Op::SetAccess {
        path: path.copy(alloc)?,
        owner: copy_id(alloc, owner)?,
        group: copy_id(alloc, group)?,
        permissions,
        acl: copy_acl(alloc, acl)?,
    })
}

fn set_access_recursive(
    alloc: Global,
    path: &Path,
    change: &BatchChange,
    token: &Option<Path>,
    max: u32,
    force: bool,
) -> Result<Op, AllocError>
    ensures { IfOk result (λ copied. copied ≡ op.SetAccessRecursive path.now change.now token.now max force) }
{
    Ok(Op::SetAccessRecursive {
        path: path.copy(alloc)?,
        change: change.copy(alloc)?,
        token: copy_path(alloc, token)?,
        max,
        force,
    })
}
