ghost use Rattle.std.specs.Prelude.{◌≡◌, codes};
ghost use Rattle.path_text.specs.Queries.{first_value};
ghost use Rattle.op_decode.specs.Headers.{is_text};

use super::headers::{has_header, is_text};
use super::method::Method;
use http_front::Raw;
use namespace_model::Kind;
use path_text::Query;

/// The operations: the Filesystem and Path calls of Microsoft's REST reference for ADLS Gen2.
#[derive(Clone, Copy)]
pub enum Operation {
    ListFilesystems,
    CreateFilesystem,
    GetFilesystem,
    SetFilesystem,
    DeleteFilesystem,
    List,
    Create(Kind),
    Rename,
    Read,
    /// The flag says whether the system's properties alone are asked for.
    GetProperties(bool),
    GetAccess,
    CheckAccess,
    Append,
    Flush,
    SetProperties,
    SetAccess,
    SetAccessRecursive,
    Lease,
    Delete,
}

impl Operation {
    ghost use Rattle.std.specs.Prelude.{List, ℕ};
    ghost use Rattle.http_front.specs.declared.raw.Raw.{Raw};
    ghost use Rattle.op_decode.specs.Operations.{operation_of, takes};

    /// The operation of the first row of the table that fits: the method, and then the distinction.
    pub fn of(method: Method, query: &Query, raw: &Raw) -> Option<Operation>
        ensures { result ≡ operation_of method query.now raw.now }
    {
        match method {
            Method::Get => Some(Operation::of_get(query)),
            Method::Head => Operation::of_head(query),
            Method::Put => Operation::of_put(query, raw),
            Method::Patch => Operation::of_patch(query),
            Method::Post => Operation::of_post(raw),
            Method::Delete => Some(Operation::of_delete(query)),
            Method::Other => None,
        }
    }

    #[tactic(auto, unfolding(crate::specs::Operations::operation_of))]
    fn of_get(query: &Query) -> Operation
        ensures { (raw : Raw) → Some result ≡ operation_of Method.Get query.now raw }
    {
        if has_resource(query, b"account") {
            Operation::ListFilesystems
        } else if has_resource(query, b"filesystem") {
            Operation::List
        } else {
            Operation::Read
        }
    }

    #[tactic(auto, unfolding(crate::specs::Operations::operation_of))]
    fn of_head(query: &Query) -> Option<Operation>
        ensures { (raw : Raw) → result ≡ operation_of Method.Head query.now raw }
    {
        if has_resource(query, b"filesystem") {
            Some(Operation::GetFilesystem)
        } else if query.first(b"action").is_none() {
            Some(Operation::GetProperties(false))
        } else if has_action(query, b"getStatus") {
            Some(Operation::GetProperties(true))
        } else if has_action(query, b"getAccessControl") {
            Some(Operation::GetAccess)
        } else if has_action(query, b"checkAccess") {
            Some(Operation::CheckAccess)
        } else {
            None
        }
    }

    #[tactic(auto, unfolding(crate::specs::Operations::operation_of))]
    fn of_put(query: &Query, raw: &Raw) -> Option<Operation>
        ensures { result ≡ operation_of Method.Put query.now raw.now }
    {
        if has_resource(query, b"filesystem") {
            Some(Operation::CreateFilesystem)
        } else if has_resource(query, b"file") {
            Some(Operation::Create(Kind::File))
        } else if has_resource(query, b"directory") {
            Some(Operation::Create(Kind::Directory))
        } else if has_header(raw, b"x-ms-rename-source") {
            Some(Operation::Rename)
        } else {
            None
        }
    }

    #[tactic(auto, unfolding(crate::specs::Operations::operation_of))]
    fn of_patch(query: &Query) -> Option<Operation>
        ensures { (raw : Raw) → result ≡ operation_of Method.Patch query.now raw }
    {
        if has_resource(query, b"filesystem") {
            Some(Operation::SetFilesystem)
        } else if has_action(query, b"append") {
            Some(Operation::Append)
        } else if has_action(query, b"flush") {
            Some(Operation::Flush)
        } else if has_action(query, b"setProperties") {
            Some(Operation::SetProperties)
        } else if has_action(query, b"setAccessControl") {
            Some(Operation::SetAccess)
        } else if has_action(query, b"setAccessControlRecursive") {
            Some(Operation::SetAccessRecursive)
        } else {
            None
        }
    }

    #[tactic(auto, unfolding(crate::specs::Operations::operation_of))]
    fn of_post(raw: &Raw) -> Option<Operation>
        ensures { (query : List (List ℕ × List ℕ)) → result ≡ operation_of Method.Post query raw.now }
    {
        if has_header(raw, b"x-ms-lease-action") {
            Some(Operation::Lease)
        } else {
            None
        }
    }

    #[tactic(auto, unfolding(crate::specs::Operations::operation_of))]
    fn of_delete(query: &Query) -> Operation
        ensures { (raw : Raw) → Some result ≡ operation_of Method.Delete query.now raw }
    {
        if has_resource(query, b"filesystem") {
            Operation::DeleteFilesystem
        } else {
            Operation::Delete
        }
    }

    /// Whether the operation's path has so many parts: the account has none, and the root of a filesystem one.
    pub fn takes(self, parts: usize) -> bool
        ensures { result ≡ takes self parts }
    {
        match self {
            Operation::ListFilesystems => parts == 0,
            Operation::CreateFilesystem
            | Operation::GetFilesystem
            | Operation::SetFilesystem
            | Operation::DeleteFilesystem
            | Operation::List => parts == 1,
            Operation::GetProperties(_)
            | Operation::GetAccess
            | Operation::CheckAccess
            | Operation::SetProperties
            | Operation::SetAccess
            | Operation::SetAccessRecursive => 1 <= parts,
            Operation::Create(_)
            | Operation::Rename
            | Operation::Read
            | Operation::Append
            | Operation::Flush
            | Operation::Lease
            | Operation::Delete => 2 <= parts,
        }
    }
}

fn has_resource(query: &Query, text: &[u8]) -> bool
    ensures { result ≡ is_text text.now (first_value query.now (codes "resource")) }
{
    is_text(query.first(b"resource"), text)
}

fn has_action(query: &Query, text: &[u8]) -> bool
    ensures { result ≡ is_text text.now (first_value query.now (codes "action")) }
{
    is_text(query.first(b"action"), text)
}
