//! Path Get Properties, Path Update with `setProperties`, and Path Delete.

ghost use Rattle.std.specs.Prelude.{◌≡◌};
ghost use Rattle.op_decode.specs.Nodes.{delete_of, get_properties_of, set_properties_of};
ghost use Rattle.op_decode.specs.Orders.{Answers};

use super::parameters::flag_in;
use super::stop::Stop;
use super::values::needed_props_in;
use http_front::Raw;
use namespace_model::{Code, Op};
use path_text::{Path, Query};
use std::alloc::Global;

/// Path Get Properties.
#[tactic(auto, unfolding(crate::specs::Nodes::get_properties_of))]
pub fn get_properties_row(path: Path, status: bool) -> Result<Op, Code>
    ensures { result ≡ get_properties_of path status }
{
    Ok(Op::GetProperties { path, status })
}

/// Path Update with `setProperties`: properties, which have to be there.
#[tactic(auto, unfolding(crate::specs::Nodes::set_properties_of))]
pub fn set_properties_row(alloc: Global, path: Path, raw: &Raw) -> Result<Op, Stop>
    ensures { Answers result (set_properties_of path raw.now) }
{
    let props = needed_props_in(alloc, raw)?;
    Ok(Op::SetProperties { path, props })
}

/// Path Delete: `recursive`.
#[tactic(auto, unfolding(crate::specs::Nodes::delete_of))]
pub fn delete_row(path: Path, query: &Query) -> Result<Op, Code>
    ensures { result ≡ delete_of path query.now }
{
    let recursive = flag_in(b"recursive", query)?;
    Ok(Op::Delete { path, recursive })
}
