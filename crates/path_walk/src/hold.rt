//! Whether the nodes that are to be written are held for it.
ghost use Rattle.std.specs.Prelude.{◌≡◌, ◌<◌, true};
ghost use Rattle.lock_core.specs.declared.object.LockMode.TheVariants.{Exclusive};
ghost use Rattle.inode_tree.specs.Views.{covers};
ghost use Rattle.path_walk.specs.Holds.{IsUnheld};

use inode_tree::{Need, NodeId, View};
use lock_core::LockMode;

/// A stripe in which one of these nodes lies and which isn't held exclusively. It is `None` exactly where each of them lies in a stripe
/// that is held so. It takes no memory.
pub fn unheld<V: View>(view: &V, ids: &[NodeId]) -> Option<Need>
    ensures { IsUnheld (V.held view.now) ids.now result }
{
    for id in ids {
        let stripe = (id.0 % 64) as u8;
        if !is_exclusive(view, stripe) {
            return Some(Need {
                stripe,
                mode: LockMode::Exclusive,
            });
        }
    }
    None
}

fn is_exclusive<V: View>(view: &V, stripe: u8) -> bool
    requires { stripe < 64 }
    ensures { result ≡ covers (V.held view.now stripe) Exclusive }
{
    matches!(view.mode(stripe), LockMode::Exclusive)
}
