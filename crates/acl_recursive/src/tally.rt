//! What came of the nodes so far.
ghost use Rattle.std.specs.Prelude.{◌≡◌, ◌≢◌, ℕ, ◌<◌, ◌+◌, List, [], ◌∷◌, ◌++◌, false, IfOk};
ghost use Rattle.inode_tree.specs.Inodes.{node_of};
ghost use Rattle.namespace_model.specs.Nodes.{Node, kind_of};
ghost use Rattle.namespace_model.specs.SetAccessRecursive.{turn_of};
ghost use Rattle.namespace_model.specs.Trees.{Path};
ghost use Rattle.acl_recursive.specs.Batched.{Turns, IsTally, IsWithEdit, IsWithFailure, fails, for_kind};
ghost use Rattle.acl_recursive.specs.declared.walk.Step.{Step};

use super::asked::Asked;
use super::turn::turn;
use super::walk::Step;
use acl_text::AclPair;
use body_text::{Changed, failure_value, name_below};
use inode_tree::{Edit, NodeId, NodeRef};
use namespace_model::{Code, Kind};
use path_order::Seen;
use path_text::Path;
use path_walk::{Call, is_directory, stamp};
use serde_json::Value;
use std::alloc::{AllocError, Global};

// What came of the nodes so far, in path order.
#[derive(Drop)]
pub(crate) struct Tally {
    // The edits of those that are changed.
    pub(crate) edits: Vec<(NodeId, Edit)>,
    // How many they are.
    pub(crate) changed: Changed,
    // The values of those that failed.
    pub(crate) failed: Vec<Value>,
    // Their ids.
    pub(crate) failed_ids: Vec<NodeId>,
}

// Takes the turn of one node more, and says whether it failed.
pub(crate) fn take_turn(
    alloc: Global,
    tally: &mut Tally,
    call: &Call<'_>,
    asked: &Asked<'_>,
    step: &Step,
) -> Result<bool, AllocError>
    requires path { call.now.path.now ≢ [] }
    requires files { asked.now.for_files.now ≡ for_kind false asked.now.change.now }
    requires room { tally.old.changed.directories + tally.old.changed.files < 4294967296 }
    ensures failed { IfOk result (λ failed. failed ≡ fails (turn_of call.now.caller.now asked.now.change.now (node_of step.now.seen.node))) }
    ensures tally { IfOk result (λ failed. (rows : List Step)
        → IsTally (turn_of call.now.caller.now asked.now.change.now) call.now.moment call.now.path.now rows tally.old
        → IsTally (turn_of call.now.caller.now asked.now.change.now) call.now.moment call.now.path.now (rows ++ step.now ∷ []) tally.new) }
{
    match turn(alloc, call.caller, asked, &step.seen.node)? {
        Ok(pair) => {
            tally.put_edit(alloc, call.moment, &step.seen, pair)?;
            Ok(false)
        }
        Err(code) => {
            tally.put_failure(alloc, call.path, step, code)?;
            Ok(true)
        }
    }
}

impl Tally {
    // Nothing yet.
    pub(crate) fn new(alloc: Global) -> Tally
        ensures { (turns : Turns) (moment : ℕ) (dir : Path) → IsTally turns moment dir [] result }
    {
        Tally {
            edits: Vec::new(alloc),
            changed: Changed {
                directories: 0,
                files: 0,
            },
            failed: Vec::new(alloc),
            failed_ids: Vec::new(alloc),
        }
    }

    // A node has these lists from now on, and the moment in milliseconds since 1970.
    fn put_edit(
        &mut self,
        alloc: Global,
        moment: u64,
        seen: &Seen,
        pair: AclPair,
    ) -> Result<(), AllocError>
        requires room { self.old.changed.directories + self.old.changed.files < 4294967296 }
        ensures { IfOk result (λ _. IsWithEdit self.old moment seen.now pair self.new) }
    {
        let mut meta = seen.node.meta(alloc)?;
        meta.acl = pair;
        self.edits.push((seen.id, stamp(meta, moment)))?;
        if is_directory(&seen.node) {
            self.changed.directories += 1;
        } else {
            self.changed.files += 1;
        }
        Ok(())
    }

    // A node fails.
    fn put_failure(
        &mut self,
        alloc: Global,
        dir: &Path,
        step: &Step,
        code: Code,
    ) -> Result<(), AllocError>
        requires path { dir.now ≢ [] }
        ensures { IfOk result (λ _. IsWithFailure self.old dir.now step.now code self.new) }
    {
        let name = name_below(alloc, dir, step.names.as_slice())?;
        let value = failure_value(alloc, name, kind_in(&step.seen.node), code)?;
        self.failed.push(value)?;
        self.failed_ids.push(step.seen.id)?;
        Ok(())
    }
}

// The kind of a node.
fn kind_in(node: &NodeRef) -> Kind
    ensures { result ≡ kind_of (node_of node.now) }
{
    if is_directory(node) {
        Kind::Directory
    } else {
        Kind::File
    }
}
