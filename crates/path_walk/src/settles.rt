//! The answer of a call where nodes are to be edited that were found.
ghost use Rattle.path_walk.specs.Calls.{IsCall};
ghost use Rattle.path_walk.specs.Settles.{Settles, SettlesAll};

use super::answer::answered;
use super::call::Call;
use super::edits::{Verdict, edited, edited_all, ids_in};
use super::hold::unheld;
use inode_tree::{Draft, Edit, EvalStop, NodeId, View};
use namespace_model::Reply;
use std::alloc::Global;

/// The draft of what a call on one node comes to, behind these nodes that were read: the last of them is the node of its path, with this
/// id. Where the node is edited and its stripe isn't held exclusively, the answer is `Need`; want of memory may come at any time.
pub fn settle<V: View>(
    alloc: Global,
    view: &V,
    call: &Call<'_>,
    reads: Vec<NodeId>,
    id: NodeId,
    verdict: Verdict,
) -> Result<Draft, EvalStop>
    requires call { IsCall call.now }
    ensures evaluated { Settles (V.held view.now) (V.shown view.now) call.now reads.items id verdict result }
{
    match verdict {
        Verdict::Answer(reply) => Ok(answered(alloc, reads, reply, call.request.close)?),
        Verdict::Edits(edits, reply) => {
            if let Some(need) = unheld(view, &[id]) {
                return Err(EvalStop::Need(need));
            }
            Ok(edited(alloc, reads, id, edits, reply, call.request.close)?)
        }
    }
}

/// The draft of a call that edits each of these nodes so, behind these that were read. Where one of them lies in a stripe that isn't held
/// exclusively, the answer is `Need`; want of memory may come at any time.
pub fn settle_all<V: View>(
    alloc: Global,
    view: &V,
    call: &Call<'_>,
    reads: Vec<NodeId>,
    edits: Vec<(NodeId, Edit)>,
    reply: Reply,
) -> Result<Draft, EvalStop>
    requires call { IsCall call.now }
    ensures evaluated { SettlesAll (V.held view.now) (V.shown view.now) call.now reads.items edits.items reply result }
{
    let writes = ids_in(alloc, edits.as_slice())?;
    if let Some(need) = unheld(view, writes.as_slice()) {
        return Err(EvalStop::Need(need));
    }
    Ok(edited_all(alloc, reads, edits, reply, call.request.close)?)
}
