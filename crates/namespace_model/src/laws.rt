ghost use Rattle.std.specs.Prelude.{◌≡◌, ◌≤◌, ℕ, suc, Bool, true, List, [], ◌∷◌, length, Option, Some, None, IsSome};
ghost use Rattle.std.specs.declared.cmp.Ordering.TheVariants.{Less};
ghost use Rattle.path_text.specs.Paths.{path_cmp};
ghost use Rattle.namespace_model.specs.declared.op.BatchChange.{BatchChange};
ghost use Rattle.namespace_model.specs.declared.op.Op.TheVariants as op;
ghost use Rattle.namespace_model.specs.Nodes.{Node};
ghost use Rattle.namespace_model.specs.PageRuns.{Course, course_of, page_at, IsFollowed, followed_paths};
ghost use Rattle.namespace_model.specs.Renames.{IsRenamed};
ghost use Rattle.namespace_model.specs.Stamps.{HasRightStamp, StampsRightly};
ghost use Rattle.namespace_model.specs.Worked.{AFilesystemIsMadeByTheSuperuserAlone, TheMaskLimitsANamedUser, TheOwnerIsJudgedByItsEntry, AStickyDirectoryGuardsItsChildren, AFlushFillsNoGap, ARangeIsCutToTheLastByte, ALeaseKeepsAWriterOutUntilItsEnd, ALeaseThatHasComeToItsEndLetsItIn, TheUmaskRestrictsNewNodes, ADirectoryThatIsNotEmptyStays, AnAppendThatFlushesFillsNoGap, AnAppendMayFlush, AnAppendMayTakeALease, AnAppendIsKeptOutByALease};
ghost use Rattle.namespace_model.specs.declared.request.Entry.{Entry};
ghost use Rattle.namespace_model.specs.Trees.{Path, Tree, at, IsDirectoryAt, IsTree};
ghost use Rattle.namespace_model.specs.Locality.{Among, IsLocal, IsClosed};
ghost use Rattle.namespace_model.specs.Quiet.{IsQuiet};
ghost use Rattle.namespace_model.specs.DenialPlaces.{DeniesInPlace};
ghost use Rattle.namespace_model.specs.Apart.{IsIn, IsOn, AgreeOn, AlikeOn, AskNoNumber, SameButNumbers};
ghost use Rattle.namespace_model.specs.Denials.{DeniesRightly, NamesDenials};
ghost use Rattle.namespace_model.specs.Lines.{AreInOrder, open_tags};
ghost use Rattle.namespace_model.specs.NamedNodes.{PutsNamed};
ghost use Rattle.namespace_model.specs.Told.{AreTold, told_of};
ghost use Rattle.namespace_model.specs.Shapes.{IsShaped, KeepsOthers};
ghost use Rattle.namespace_model.specs.Sound.{IsSound};
ghost use Rattle.namespace_model.specs.Step.{outcome, step};

/// What a step reads and writes decides all that comes of it: on another map, which is alike at each touched path, the touched paths,
/// the new paths, the reply and the effect are the same. Nothing is asked of the request.
pub fn steps_are_local()
    ensures { (e : Entry) → IsLocal (λ t. outcome t e) }
{}

/// What is above a touched path is touched. Nothing is asked of the request.
pub fn steps_are_closed()
    ensures { (e : Entry) → IsClosed (λ t. outcome t e) }
{}

/// A step whose reply has a code writes no path, makes no node and leaves the tree as it was.
pub fn refusals_change_nothing()
    ensures quiet { (t : Tree) (e : Entry) → IsQuiet (outcome t e) }
    ensures tree { (t : Tree) (e : Entry) (number : ℕ) → IsSome (step t e number).reply.code → (step t e number).tree ≡ t }
{}

/// A reply has the status 403 exactly where it names a denial, and what a denial names is that of the deciding case on the tree before the
/// step. Of the map nothing more is asked for that than that the account is a directory.
pub fn denials_name_their_rule()
    ensures named { (t : Tree) (e : Entry) → IsSound e.request → NamesDenials (outcome t e).reply }
    ensures right { (t : Tree) (e : Entry) → IsDirectoryAt t [] → DeniesRightly t e (outcome t e).reply }
{}

/// What a step takes away, puts, makes and moves is written, lies on the tree as it has to, and leaves a tree whose paths keep the limits.
pub fn steps_keep_trees()
    ensures shaped { (t : Tree) (e : Entry) → IsTree t → IsSound e.request → IsShaped t (outcome t e) }
    ensures tree { (t : Tree) (e : Entry) (number : ℕ) → IsTree t → IsSound e.request → IsTree (step t e number).tree }
{}

/// After a step a node, followed through the move, has the entry's moment and number where its operation stamps it, and else its own; and a
/// path that is neither written nor new, nor at or below the source or the destination of a move, keeps its node.
pub fn stamps_are_where_the_operation_stamps()
    ensures puts { (t : Tree) (e : Entry) → IsTree t → StampsRightly t e (outcome t e) }
    ensures after { (t : Tree) (e : Entry) (number : ℕ) (q : Path) (y : Node) → IsTree t → IsSound e.request → at (step t e number).tree q ≡ Some y → HasRightStamp t e (outcome t e) number q y }
    ensures others { (t : Tree) (e : Entry) (number : ℕ) → IsTree t → IsSound e.request → KeepsOthers t (outcome t e) (step t e number).tree }
{}

/// A rename that is not refused moves its source and all below it, takes away what stood at the destination, changes the source's own node
/// alone, and leaves every other path as it was.
pub fn renames_move_a_subtree()
    ensures { (t : Tree) (e : Entry) (number : ℕ) (path source : Path) (props : Option (List (List ℕ × List ℕ))) → IsTree t → IsSound e.request → e.request.op ≡ op.Rename path source props
        → (step t e number).reply.code ≡ None → IsRenamed e number source path props t (step t e number).tree }
{}

/// Pages and batches of at least one node, each with the token of the one before, go through each path of their course once, while no path
/// comes or goes; and on every tree each handles paths behind its token alone.
pub fn pages_cover_their_course()
    ensures covered { (course : Course) (less : ℕ) (t : Tree) (ts : List Tree) → IsFollowed course (suc less) None (t ∷ ts) → followed_paths course (suc less) None (t ∷ ts) ≡ course_of course t }
    ensures behind { (course : Course) (max : ℕ) (token : Path) (t : Tree) (q : Path) → Among q (page_at course max (Some token) t).paths → path_cmp token q ≡ Less }
    ensures written { (t : Tree) (e : Entry) (path : Path) (change : BatchChange) (token : Path) (max : ℕ) (force : Bool) → IsTree t
        → e.request.op ≡ op.SetAccessRecursive path change (Some token) max force → (q : Path) → Among q (outcome t e).written → path_cmp token q ≡ Less }
{}

/// A denial is at a place where the operation asks, and wants what is wanted there: for a call on filesystems the account or the root; for a
/// check a directory on the way with execute, the directory of what is made, moved or deleted with write and execute, the node with the
/// operation's bits, a directory of a page or of a subtree with its bits; and for the other rules the node. No other place and no other want.
pub fn denials_are_in_place()
    ensures { (t : Tree) (e : Entry) → DeniesInPlace t e (outcome t e).reply }
{}

/// The lines of a reply ascend by their places in the list of all lines, so none comes twice, and an ETag is open at most once.
pub fn lines_are_in_order()
    ensures order { (t : Tree) (e : Entry) → AreInOrder (outcome t e).reply.fields }
    ensures tags { (t : Tree) (e : Entry) → open_tags (outcome t e).reply.fields ≤ 1 }
{}

/// An entry makes at most 60 nodes, whatever its operation.
pub fn new_nodes_are_few()
    ensures { (t : Tree) (e : Entry) → IsSound e.request → length (outcome t e).fresh ≤ 60 }
{}

/// What a reply tells is so after the step: the node at its path has the number of the ETag, the entry's own where it is left
/// open, and the moment of Last-Modified.
pub fn replies_tell_what_is()
    ensures { (t : Tree) (e : Entry) (number : ℕ) → IsTree t → IsSound e.request
        → AreTold (step t e number).tree number (told_of e.request.op) (step t e number).reply.fields }
{}

/// Where a reply has no code, each node that the operation stamps is put: the node that it names, each new one, each that a batch changes.
/// After the step it stands there with the entry's number and moment.
pub fn successes_put_what_is_named()
    ensures { (t : Tree) (e : Entry) (number : ℕ) → IsTree t → IsSound e.request → (step t e number).reply.code ≡ None → PutsNamed t e number (step t e number).tree }
{}

/// A request on one filesystem, any but a listing of filesystems, sees the account's node and that filesystem alone, and changes that filesystem
/// alone. It sees no number but by its conditions: where these ask for none, two trees that are alike there but for the numbers of nodes give
/// replies that are the same but for these, and are alike again after steps under any two numbers. A rename has both its paths in one filesystem.
pub fn filesystems_are_apart()
    ensures sees { (fs : List ℕ) (s t : Tree) (e : Entry) → IsOn fs e.request.op → AgreeOn fs s t → outcome s e ≡ outcome t e }
    ensures agrees { (fs : List ℕ) (s t : Tree) (e : Entry) (number : ℕ) → IsTree s → IsSound e.request → IsOn fs e.request.op → AgreeOn fs s t
        → AgreeOn fs (step s e number).tree (step t e number).tree }
    ensures others { (fs : List ℕ) (t : Tree) (e : Entry) (number : ℕ) → IsOn fs e.request.op → (q : Path) → ¬ IsIn fs q → at (step t e number).tree q ≡ at t q }
    ensures no_number { (fs : List ℕ) (s t : Tree) (e : Entry) → IsOn fs e.request.op → AskNoNumber e.request.cond → AlikeOn fs s t
        → SameButNumbers e.request.op (outcome s e).reply (outcome t e).reply }
    ensures alike { (fs : List ℕ) (s t : Tree) (e : Entry) (n m : ℕ) → IsTree s → IsSound e.request → IsOn fs e.request.op → AskNoNumber e.request.cond
        → AlikeOn fs s t → AlikeOn fs (step s e n).tree (step t e m).tree }
    ensures moves { (fs : List ℕ) (e : Entry) (path source : Path) (props : Option (List (List ℕ × List ℕ))) → IsSound e.request
        → e.request.op ≡ op.Rename path source props → IsIn fs path → IsIn fs source }
{}

/// Steps of worked conversations, from eight operations.
pub fn worked_steps()
    ensures a_filesystem_is_made_by_the_superuser_alone { AFilesystemIsMadeByTheSuperuserAlone }
    ensures the_mask_limits_a_named_user { TheMaskLimitsANamedUser }
    ensures the_owner_is_judged_by_its_entry { TheOwnerIsJudgedByItsEntry }
    ensures a_sticky_directory_guards_its_children { AStickyDirectoryGuardsItsChildren }
    ensures a_flush_fills_no_gap { AFlushFillsNoGap }
    ensures a_range_is_cut_to_the_last_byte { ARangeIsCutToTheLastByte }
    ensures a_lease_keeps_a_writer_out_until_its_end { ALeaseKeepsAWriterOutUntilItsEnd }
    ensures a_lease_that_has_come_to_its_end_lets_it_in { ALeaseThatHasComeToItsEndLetsItIn }
    ensures the_umask_restricts_new_nodes { TheUmaskRestrictsNewNodes }
    ensures a_directory_that_is_not_empty_stays { ADirectoryThatIsNotEmptyStays }
    ensures an_append_that_flushes_fills_no_gap { AnAppendThatFlushesFillsNoGap }
    ensures an_append_may_flush { AnAppendMayFlush }
    ensures an_append_may_take_a_lease { AnAppendMayTakeALease }
    ensures an_append_is_kept_out_by_a_lease { AnAppendIsKeptOutByALease }
{}
