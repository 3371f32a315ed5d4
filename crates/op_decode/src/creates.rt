ghost use Rattle.op_decode.specs.Creates.{create_of};
ghost use Rattle.op_decode.specs.Orders.{Answers};

use super::stop::Stop;
use super::values::{permissions_in, props_in, umask_in};
use http_front::Raw;
use namespace_model::{Kind, Op};
use path_text::Path;
use std::alloc::Global;

/// Path Create: permissions, umask, properties.
#[tactic(auto, unfolding(crate::specs::Creates::create_of))]
pub fn create_row(alloc: Global, path: Path, kind: Kind, raw: &Raw) -> Result<Op, Stop>
    ensures { Answers result (create_of path kind raw.now) }
{
    let permissions = permissions_in(raw)?;
    let umask = umask_in(raw)?;
    let props = props_in(alloc, raw)?;
    Ok(Op::Create {
        path,
        kind,
        permissions,
        umask,
        props,
    })
}
