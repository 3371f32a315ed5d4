ghost use Rattle.inode_tree.specs.Framed.{IsFramed, LeavesOthers};
ghost use Rattle.inode_tree.specs.Idle.{IdleChangesNothing, OthersStay, StripesAreApart};
ghost use Rattle.inode_tree.specs.Kept.{StandsAfter, StandsByIndex, HasIndex, HasOneList};
ghost use Rattle.inode_tree.specs.Parts.{Parts};
ghost use Rattle.inode_tree.specs.Promises.{HoldsAll, NeedsNothingMore};
ghost use Rattle.inode_tree.specs.WorkedParts.{HasWorkedFile, AReadIsOfItsWay, ACreateWritesOldAndNew, ARenameWritesBothParents};

/// Nothing changes by a drop, link, unlink or edit of a node that isn't there, a link or unlink at a file, a stage or flush
/// at a directory, a meta of the other kind, an unlink of a name that isn't there, a stage of an empty piece, and a stage or
/// flush that is refused.
pub fn idle_changes_change_nothing()
    ensures { IdleChangesNothing }
{}

/// A change is of one node, and the changes that a stripe takes are of its own nodes.
pub fn other_nodes_stay()
    ensures others { OthersStay }
    ensures stripes { StripesAreApart }
{}

/// What an entry does rests on the parts that it reads and writes: on another list of parts that agrees on those, whatever the
/// rest, it reads, writes and replies the same and leaves the same in the parts that it writes, it fits after the same entries of
/// its pass, and the same work is its own. Nothing is asked of the parts nor of the entry, and they need not stand for a tree.
pub fn entries_are_framed()
    ensures { IsFramed }
{}

/// A part that an entry doesn't write stays as it was, whatever the parts and the entry.
pub fn other_parts_stay()
    ensures { LeavesOthers }
{}

/// Where parts stand for a tree, and an entry of a sound request drew one id for each node that it makes, none twice and none that
/// is kept, the parts after it stand for the tree of its step, under each number. So it is for every operation.
pub fn parts_after_stand_for_the_step()
    ensures { StandsAfter }
{}

/// 64 parts that keep ids of their own stripes alone stand for a tree exactly where they have an index for it, which gives each
/// path that is there its id; and two such lists of parts with one index for one tree are one list.
pub fn an_index_tells_all_parts()
    ensures stands { StandsByIndex }
    ensures index { HasIndex }
    ensures same { HasOneList }
{}

/// A stripe that an evaluator says it needs is one that isn't held: where all that a request reads and writes is held, there is no need.
pub fn nothing_is_needed_where_all_is_held()
    ensures { NeedsNothingMore }
{}

/// An evaluator that has a draft holds all that the request reads and writes.
pub fn a_draft_holds_its_footprint()
    ensures { HoldsAll }
{}

/// What a read of a file, a create over it and a rename of it read and write on parts in which the file has a known place.
pub fn worked_footprints()
    ensures a_read_is_of_its_way { (parts : Parts) → HasWorkedFile parts 131 → AReadIsOfItsWay parts }
    ensures a_create_writes_old_and_new { (parts : Parts) → HasWorkedFile parts 131 → ACreateWritesOldAndNew parts }
    ensures a_rename_writes_both_parents { (parts : Parts) → HasWorkedFile parts 196 → ARenameWritesBothParents parts }
{}
