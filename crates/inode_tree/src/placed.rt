ghost use Rattle.std.specs.Prelude.{◌≡◌, IfOk};

use super::id::NodeIds;
use lock_core::Bodied;
use namespace_model::Entry;
use std::alloc::{AllocError, Global};

/// An entry of the journal with the pass that made it and the ids that it drew for new nodes.
#[derive(Drop)]
pub struct Placed {
    pub entry: Entry,
    /// The number of the pass.
    pub pass: u32,
    /// The ids of its new nodes, from the top of the path.
    pub ids: NodeIds,
}

impl Placed {
    /// An equal entry. The one error is want of memory.
    pub fn copy(&self, alloc: Global) -> Result<Placed, AllocError>
        ensures { IfOk result (λ placed. placed ≡ self.now) }
    {
        Ok(Placed {
            entry: self.entry.copy(alloc)?,
            pass: self.pass,
            ids: self.ids.copy(alloc)?,
        })
    }
}

// The body is that of the request. The number of ids is told as 255 where there are more.
impl Bodied for Placed {
    ghost use Rattle.std.specs.Prelude.{length, min};

    ghost body = { λ placed. length placed.entry.request.body };

    ghost uses = { λ placed. min (length placed.ids) 255 };

    fn body_len(&self) -> u64 {
        self.entry.request.body.bytes().len() as u64
    }

    fn uses_len(&self) -> u8 {
        self.ids.items().len().min(255) as u8
    }
}
