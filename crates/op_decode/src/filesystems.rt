//! The rows of the operations on whole filesystems. The one error beside those that are named is want of memory.

ghost use Rattle.std.specs.Prelude.{◌≡◌};
ghost use Rattle.op_decode.specs.Filesystems.{create_filesystem_of, delete_filesystem_of, get_filesystem_of};
ghost use Rattle.op_decode.specs.Filesystems.{set_filesystem_of};
ghost use Rattle.op_decode.specs.Orders.{Answers};

use super::stop::Stop;
use super::values::{needed_props_in, props_in};
use http_front::Raw;
use namespace_model::{Code, Op};
use path_text::Path;
use std::alloc::Global;

/// Filesystem Create: properties.
#[tactic(auto, unfolding(crate::specs::Filesystems::create_filesystem_of))]
pub fn create_filesystem_row(alloc: Global, path: Path, raw: &Raw) -> Result<Op, Stop>
    ensures { Answers result (create_filesystem_of path raw.now) }
{
    let props = props_in(alloc, raw)?;
    Ok(Op::CreateFilesystem { path, props })
}

/// Filesystem Get Properties: nothing beside the path.
#[tactic(auto, unfolding(crate::specs::Filesystems::get_filesystem_of))]
pub fn get_filesystem_row(path: Path) -> Result<Op, Code>
    ensures { result ≡ get_filesystem_of path }
{
    Ok(Op::GetFilesystem { path })
}

/// Filesystem Set Properties: properties, which have to be given.
#[tactic(auto, unfolding(crate::specs::Filesystems::set_filesystem_of))]
pub fn set_filesystem_row(alloc: Global, path: Path, raw: &Raw) -> Result<Op, Stop>
    ensures { Answers result (set_filesystem_of path raw.now) }
{
    let props = needed_props_in(alloc, raw)?;
    Ok(Op::SetFilesystem { path, props })
}

/// Filesystem Delete: nothing beside the path.
#[tactic(auto, unfolding(crate::specs::Filesystems::delete_filesystem_of))]
pub fn delete_filesystem_row(path: Path) -> Result<Op, Code>
    ensures { result ≡ delete_filesystem_of path }
{
    Ok(Op::DeleteFilesystem { path })
}
