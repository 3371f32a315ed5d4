ghost use Rattle.std.specs.Prelude.{◌≡◌, ◌++◌, IfOk};
ghost use Rattle.inode_tree.specs.Promises.{numbers_of};
ghost use Rattle.path_order.specs.PagesBelow.{ids_in};

use super::cursor::Seen;
use inode_tree::NodeId;
use std::alloc::AllocError;

/// These ids, and behind them those of the nodes. The one error is want of memory.
pub fn with_ids(ids: Vec<NodeId>, nodes: &[Seen]) -> Result<Vec<NodeId>, AllocError>
    ensures { IfOk result (λ all. numbers_of all.items ≡ numbers_of ids.items ++ ids_in nodes.now) }
{
    let mut all = ids;
    for seen in nodes {
        all.push(seen.id)?;
    }
    Ok(all)
}
