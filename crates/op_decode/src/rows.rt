//! The table of operations: what each takes.

ghost use Rattle.op_decode.specs.Orders.{Answers};
ghost use Rattle.op_decode.specs.Rows.{op_of_row};

use super::access::{check_access_row, get_access_row, set_access_row};
use super::batches::set_access_recursive_row;
use super::creates::create_row;
use super::data::{append_row, flush_row, read_row};
use super::filesystems::{
    create_filesystem_row, delete_filesystem_row, get_filesystem_row, set_filesystem_row,
};
use super::leases::lease_row;
use super::listings::{list_filesystems_row, list_row};
use super::nodes::{delete_row, get_properties_row, set_properties_row};
use super::operation::Operation;
use super::renames::rename_row;
use super::stop::Stop;
use http_front::Raw;
use namespace_model::Op;
use path_text::{Path, Query};
use std::alloc::Global;

/// What an operation takes from its path, its parameters, its headers and its body: each row reads what it names in
/// its order, and the first that fails decides.
#[tactic(auto, unfolding(crate::specs::Rows::op_of_row))]
pub fn op_of_row(
    alloc: Global,
    operation: Operation,
    path: Path,
    query: &Query,
    raw: &Raw,
) -> Result<Op, Stop>
    ensures { Answers result (op_of_row operation path query.now raw.now) }
{
    match operation {
        Operation::ListFilesystems => list_filesystems_row(alloc, query),
        Operation::CreateFilesystem => create_filesystem_row(alloc, path, raw),
        Operation::GetFilesystem => Ok(get_filesystem_row(path)?),
        Operation::SetFilesystem => set_filesystem_row(alloc, path, raw),
        Operation::DeleteFilesystem => Ok(delete_filesystem_row(path)?),
        Operation::List => list_row(alloc, path, query),
        Operation::Create(kind) => create_row(alloc, path, kind, raw),
        Operation::Rename => rename_row(alloc, path, query, raw),
        Operation::Read => Ok(read_row(path, raw)?),
        Operation::GetProperties(status) => Ok(get_properties_row(path, status)?),
        Operation::GetAccess => Ok(get_access_row(path)?),
        Operation::CheckAccess => Ok(check_access_row(path, query)?),
        Operation::Append => Ok(append_row(path, query, raw)?),
        Operation::Flush => Ok(flush_row(path, query, raw)?),
        Operation::SetProperties => set_properties_row(alloc, path, raw),
        Operation::SetAccess => set_access_row(alloc, path, raw),
        Operation::SetAccessRecursive => set_access_recursive_row(alloc, path, query, raw),
        Operation::Lease => Ok(lease_row(path, raw)?),
        Operation::Delete => Ok(delete_row(path, query)?),
    }
}
