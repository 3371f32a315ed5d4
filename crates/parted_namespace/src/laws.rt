ghost use Rattle.std.specs.Prelude.{List};
ghost use Rattle.inode_tree.specs.declared.placed.Placed.{Placed};
ghost use Rattle.lock_core.specs.Sound.{AllFit};
ghost use Rattle.parted_namespace.specs.Namespace.{namespace};
ghost use Rattle.parted_namespace.specs.Journals.{StandsFor};

/// A law: where each entry of a journal fits, the replay of it stands for the tree of the run of its entries. Each of its stripes has its
/// place as its number and nothing ready; each node has a date; each id that is kept is the account's or was given; and the ids that a
/// pass gave are the first ones of its row, as many as its entries use up.
pub fn fitting_journals_stand()
    ensures { (journal : List Placed) → AllFit namespace journal → StandsFor journal }
{}
