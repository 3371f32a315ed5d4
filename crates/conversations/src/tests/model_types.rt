// Each copy of a value of the model, and the texts of codes.
use acl_text::{AclList, Id, Perm, RemoveList, read_acl, read_id, read_remove_list};
use file_data::{Piece, SharedPiece};
use head_text::{Conditions, Props, read_etags};
use namespace_model::{
    BatchChange, Caller, Code, Denied, Entry, Field, FieldList, IdList, Kind, Op, Reply, Request,
    Rule,
};
use path_text::{Path, read_plain};
use std::alloc::{AllocError, Global};
use std::test::Fail;

fn path(alloc: Global) -> Result<Path, AllocError> {
    read_plain(alloc, b"/data/dir/file").map_err(|_| AllocError)
}

fn id(alloc: Global) -> Result<Id, AllocError> {
    read_id(alloc, b"alice")?.ok_or(AllocError)
}

fn list(alloc: Global) -> Result<AclList, AllocError> {
    read_acl(alloc, b"user::rwx,user:bob:r--,default:other::--x").map_err(|_| AllocError)
}

fn items(alloc: Global) -> Result<RemoveList, AllocError> {
    read_remove_list(alloc, b"user:bob,default:mask").map_err(|_| AllocError)
}

fn text(alloc: Global, bytes: &[u8]) -> Result<Piece, AllocError> {
    Ok(Piece::new(bytes.to_vec(alloc)?))
}

// Whether a copy succeeds.
fn is_copied(alloc: Global, op: &Op) -> bool {
    op.copy(alloc).is_ok()
}

fn copy_op(alloc: Global, op: Op) -> bool {
    is_copied(alloc, &op)
}

fn copy_a_page(alloc: Global) -> Result<bool, AllocError> {
    let prefix = text(alloc, b"da")?;
    let token = Some(path(alloc)?);
    Ok(copy_op(
        alloc,
        Op::ListFilesystems {
            prefix,
            token,
            max: 7,
        },
    ))
}

fn copy_a_create(alloc: Global) -> Result<bool, AllocError> {
    let path = path(alloc)?;
    Ok(copy_op(
        alloc,
        Op::Create {
            path,
            kind: Kind::Directory,
            permissions: None,
            umask: None,
            props: Some(Props::none(alloc)),
        },
    ))
}

fn copy_a_setting(alloc: Global) -> Result<bool, AllocError> {
    let path = path(alloc)?;
    let owner = Some(id(alloc)?);
    let acl = Some(list(alloc)?);
    Ok(copy_op(
        alloc,
        Op::SetAccess {
            path,
            owner,
            group: None,
            permissions: None,
            acl,
        },
    ))
}

fn copy_a_batch(alloc: Global, change: BatchChange) -> Result<bool, AllocError> {
    let path = path(alloc)?;
    Ok(copy_op(
        alloc,
        Op::SetAccessRecursive {
            path,
            change,
            token: None,
            max: 9,
            force: true,
        },
    ))
}

#[test]
fn operations_are_copied(rt: HostRuntime) -> Result<(), Fail> {
    assert!(rt; copy_a_page(rt.alloc())?);
    assert!(rt; copy_a_create(rt.alloc())?);
    assert!(rt; copy_a_setting(rt.alloc())?);
    Ok(())
}

#[test]
fn changes_of_a_batch_are_copied(rt: HostRuntime) -> Result<(), Fail> {
    let alloc = rt.alloc();
    assert!(rt; copy_a_batch(alloc, BatchChange::Set(list(alloc)?))?);
    assert!(rt; copy_a_batch(alloc, BatchChange::Modify(list(alloc)?))?);
    assert!(rt; copy_a_batch(alloc, BatchChange::Remove(items(alloc)?))?);
    Ok(())
}

fn fields(alloc: Global) -> Result<FieldList, AllocError> {
    let owner = id(alloc)?;
    let permissions = text(alloc, b"rwxr-x---")?;
    let fields = vec![in alloc;
        Field::ETag(Some(3)),
        Field::Owner(owner),
        Field::Permissions(permissions),
        Field::Properties(Props::none(alloc)),
    ]?;
    Ok(FieldList::new(fields))
}

#[test]
fn fields_are_copied(rt: HostRuntime) -> Result<(), Fail> {
    let fields = fields(rt.alloc())?;
    assert_eq!(rt; fields.copy(rt.alloc())?.items().len(), 4);
    Ok(())
}

fn caller(alloc: Global) -> Result<Caller, AllocError> {
    let id = id(alloc)?;
    let mut groups = Vec::new(alloc);
    groups.push(Id::superuser(alloc)?)?;
    Ok(Caller {
        id,
        groups: IdList::new(groups),
    })
}

fn conditions(alloc: Global) -> Result<Conditions, AllocError> {
    Ok(Conditions {
        matches: Some(read_etags(alloc, b"*")?),
        none: None,
        modified: Some(1),
        unmodified: Some(2),
    })
}

fn request_of(caller: Caller, op: Op, cond: Conditions, body: SharedPiece) -> Request {
    Request {
        caller: Some(caller),
        op,
        cond,
        lease: Some(3),
        source_lease: Some(4),
        head: true,
        close: true,
        body,
    }
}

fn request(alloc: Global) -> Result<Request, AllocError> {
    let caller = caller(alloc)?;
    let path = path(alloc)?;
    let cond = conditions(alloc)?;
    let body = text(alloc, b"body")?;
    let body = SharedPiece::new(alloc, body)?;
    Ok(request_of(caller, Op::GetAccess { path }, cond, body))
}

fn entry_of(request: Request) -> Entry {
    Entry {
        conn: 1,
        index: 2,
        moment: 3,
        request,
    }
}

fn numbers_of(entry: &Entry) -> (u32, u32, u64) {
    (entry.conn, entry.index, entry.moment)
}

// What a copy keeps of the numbers.
fn numbers_of_a_copy(alloc: Global, entry: &Entry) -> Option<(u32, u32, u64)> {
    match entry.copy(alloc) {
        Ok(copied) => Some(numbers_of(&copied)),
        Err(_) => None,
    }
}

fn copied_numbers(alloc: Global) -> Result<Option<(u32, u32, u64)>, AllocError> {
    let entry = entry_of(request(alloc)?);
    Ok(numbers_of_a_copy(alloc, &entry))
}

#[test]
fn entries_are_copied(rt: HostRuntime) -> Result<(), Fail> {
    assert_eq!(rt; copied_numbers(rt.alloc())?, Some((1, 2, 3)));
    Ok(())
}

fn reply_of(fields: FieldList, body: Piece, at: Path, bits: Perm) -> Reply {
    Reply {
        status: 403,
        code: Some(Code::AuthorizationPermissionMismatch),
        fields,
        body,
        denied: Some(Denied {
            rule: Rule::Sticky,
            at,
            want: bits,
            have: bits,
        }),
    }
}

fn reply(alloc: Global) -> Result<Reply, AllocError> {
    let fields = fields(alloc)?;
    let body = text(alloc, b"body")?;
    let at = path(alloc)?;
    let bits = Perm::new(5).ok_or(AllocError)?;
    Ok(reply_of(fields, body, at, bits))
}

#[test]
fn replies_are_copied(rt: HostRuntime) -> Result<(), Fail> {
    let reply = reply(rt.alloc())?;
    assert_eq!(rt; reply.copy(rt.alloc())?.status, 403);
    Ok(())
}

fn has_texts(code: Code, status: u16, name: &str, message: &str) -> bool {
    code.status() == status && code.name() == name && code.message() == message
}

// The rows are those of Microsoft's error codes, with this service's statuses and messages.
#[test]
fn codes_have_their_texts(rt: HostRuntime) {
    assert!(rt;
        has_texts(
            Code::InvalidFlushPosition,
            400,
            "InvalidFlushPosition",
            "The flush position is not valid."
        )
    );
    assert!(rt;
        has_texts(
            Code::AuthorizationPermissionMismatch,
            403,
            "AuthorizationPermissionMismatch",
            "The caller is not allowed to do this."
        )
    );
    assert!(rt;
        has_texts(
            Code::PathNotFound,
            404,
            "PathNotFound",
            "The path does not exist."
        )
    );
    assert!(rt;
        has_texts(
            Code::LeaseAlreadyPresent,
            409,
            "LeaseAlreadyPresent",
            "There is already a lease."
        )
    );
    assert!(rt;
        has_texts(
            Code::LeaseLost,
            412,
            "LeaseLost",
            "There is no active lease."
        )
    );
    assert!(rt;
        has_texts(
            Code::InvalidRange,
            416,
            "InvalidRange",
            "The range is not valid."
        )
    );
    assert!(rt;
        has_texts(
            Code::NotBuiltYet,
            501,
            "NotBuiltYet",
            "The operation is not built yet."
        )
    );
}
