ghost use Rattle.std.specs.Prelude.{◌≡◌, ◌+◌, ◌<◌, ◌^◌};
ghost use Rattle.inode_tree.specs.Rows.{fresh_id, RowsAreApart, RowsRise, RowsLackTheAccount};

use super::id::NodeId;

/// The ids that a pass may still give to new nodes.
#[derive(Clone, Copy, Debug, PartialEq, Eq)]
pub struct Fresh {
    /// The number of the pass.
    pub pass: u32,
    /// How many ids of its row its committed entries have used up.
    pub used: u64,
}

impl Fresh {
    /// The id at a place, counted from 0, of those that are still to be given.
    pub fn id(&self, place: u32) -> NodeId
        requires pass { self.now.pass < 64 }
        requires used { self.now.used < 2 ^ 40 }
        ensures { result.0 ≡ fresh_id self.now.pass (self.now.used + place) }
    {
        NodeId(1 + u64::from(self.pass) + 65 * (self.used + u64::from(place)))
    }
}

/// The rows of two passes below 64 have no id in common, a row has each of its ids once, and no row has the id 0.
pub fn id_rows_are_apart()
    ensures apart { RowsAreApart }
    ensures rise { RowsRise }
    ensures lack { RowsLackTheAccount }
{}
