ghost use Rattle.std.specs.Prelude.{◌≡◌, ◌≤◌, ◌<◌, ◌^◌, ◌&&◌, IfOk};
ghost use Rattle.dir_rename.specs.Ends.{IsSpot};
ghost use Rattle.dir_rename.specs.declared.lengths.Room.{Room};
ghost use Rattle.dir_rename.specs.Lengths.{IsRoom};
ghost use Rattle.dir_rename.specs.Through.{IsThrough};
ghost use Rattle.dir_rename.specs.Stages.{IsOfRename, IsAsked, moving_of, renames, overs, rename_by, fits, reads_all, moves, IsSource, IsEnds, id_of, moved_meta};
ghost use Rattle.inode_tree.specs.Inodes.{node_of};
ghost use Rattle.inode_tree.specs.Promises.{IsEvaluated};
ghost use Rattle.lease_state.specs.declared.lease.TheConstants.{LAST_MOMENT};
ghost use Rattle.namespace_model.specs.declared.code.Code.TheVariants.{SourcePathNotFound};
ghost use Rattle.namespace_model.specs.Nodes.{is_directory};
ghost use Rattle.namespace_model.specs.Rename.{grows};
ghost use Rattle.namespace_model.specs.Sound.{IsSound};
ghost use Rattle.path_walk.specs.Calls.{IsCall, Answers, GoesOn};

use super::ends::{Looked, Spot, look_at};
use super::lengths::{is_growth, room_below};
use super::questions::refused;
use super::shift::{Shift, settle_shift};
use super::through::{Through, look_through};
use head_text::Props;
use inode_tree::{Draft, EvalStop, Fresh, Meta, NodeId, NodeRef, View};
use namespace_model::{Code, Op, Request};
use path_order::Seen;
use path_text::{Name, Path};
use path_walk::{Base, Call, answered, guarded, is_directory, refusal};
use std::alloc::{AllocError, Global};

// What is asked for beside the destination, which is the path of the call.
#[derive(Clone, Copy)]
pub(crate) struct Asked<'a> {
    // The path that moves.
    pub(crate) source: &'a Path,
    // The properties that it has from now on, where they are given.
    pub(crate) props: &'a Option<Props>,
}

// The source, as it was found.
#[derive(Drop)]
pub(crate) struct Source<'a> {
    // The nodes that were read.
    pub(crate) reads: Vec<NodeId>,
    // The directory in which it stands.
    pub(crate) from: Base,
    // Its name there.
    pub(crate) name: &'a Name,
    // The node.
    pub(crate) top: Seen,
}

// Both ends, as they were found.
#[derive(Drop)]
pub(crate) struct Ends<'a> {
    // The nodes that were read.
    pub(crate) reads: Vec<NodeId>,
    // The directory in which the source stands.
    pub(crate) from: Base,
    // Its name there.
    pub(crate) name: &'a Name,
    // The source's node.
    pub(crate) top: Seen,
    // The directory in which the destination stands.
    pub(crate) to: Base,
    // Its name there.
    pub(crate) new_name: &'a Name,
    // The node that stands at the destination, where one does.
    pub(crate) old: Option<Seen>,
}

/// Works out what a request to rename a file or a directory replies and changes at this moment, in milliseconds since 1970 (Path - Create
/// of the REST reference, with `x-ms-rename-source`). The nodes from the account to the source and to the destination are read, and where
/// a path below a directory may come out too long all that stands below it, for which their stripes have to be held at least shared; where
/// the node moves, its stripe, those of both directories and that of a node which it replaces have to be held exclusively. Where one isn't
/// held so, the answer is `Need`; want of memory may come at any time.
///
/// The request is a sound one to rename a node, and the moment has a date. No ids are drawn.
pub fn eval_rename<V: View>(
    alloc: Global,
    view: &mut V,
    request: &Request,
    moment: u64,
    fresh: &Fresh,
) -> Result<Draft, EvalStop>
    requires operation { IsOfRename request.now.op }
    requires sound { IsSound request.now }
    requires moment { moment ≤ LAST_MOMENT }
    requires pass { fresh.now.pass < 64 }
    requires used { fresh.now.used < 2 ^ 40 }
    ensures on { GoesOn (V.held view.old) (V.held view.new) (V.over view.old) (V.over view.new) (V.shown view.old) (V.shown view.new) }
    ensures evaluated { IsEvaluated (V.held view.old) (V.shown view.new) request.now moment fresh.now result }
{
    match (&request.op, &request.caller) {
        (
            Op::Rename {
                path,
                source,
                props,
            },
            Some(caller),
        ) => {
            let call = Call {
                request,
                caller,
                path,
                moment,
                fresh: *fresh,
            };
            rename(alloc, view, &call, &Asked { source, props })
        }
        _ => unreachable!(),
    }
}

// The look at the source.
fn rename<V: View>(
    alloc: Global,
    view: &mut V,
    call: &Call<'_>,
    asked: &Asked<'_>,
) -> Result<Draft, EvalStop>
    requires call { IsCall call.now }
    requires operation { IsAsked call.now asked.now }
    ensures on { GoesOn (V.held view.old) (V.held view.new) (V.over view.old) (V.over view.new) (V.shown view.old) (V.shown view.new) }
    ensures evaluated { Answers (V.held view.new) (V.shown view.new) call.now result }
{
    match look_at(
        alloc,
        view,
        call.caller,
        asked.source,
        Code::SourcePathNotFound,
    ) {
        Ok(Looked::At(spot)) => rename_out(alloc, view, call, asked, spot),
        Ok(Looked::Ended(ids, reply)) => Ok(answered(alloc, ids, reply, call.request.close)?),
        Err(stop) => Err(stop),
    }
}

// The same in the directory of the source.
fn rename_out<V: View>(
    alloc: Global,
    view: &mut V,
    call: &Call<'_>,
    asked: &Asked<'_>,
    spot: Spot<'_>,
) -> Result<Draft, EvalStop>
    requires call { IsCall call.now }
    requires operation { IsAsked call.now asked.now }
    requires spot { IsSpot (V.held view.old) (V.shown view.old) call.now.caller.now SourcePathNotFound asked.now.source.now spot }
    ensures on { GoesOn (V.held view.old) (V.held view.new) (V.over view.old) (V.over view.new) (V.shown view.old) (V.shown view.new) }
    ensures evaluated { Answers (V.held view.new) (V.shown view.new) call.now result }
{
    let Spot {
        reads,
        base,
        name,
        found,
    } = spot;
    match found {
        Some(top) => {
            let source = Source {
                reads,
                from: base,
                name,
                top,
            };
            rename_node(alloc, view, call, asked, source)
        }
        None => Ok(answered(
            alloc,
            reads,
            refusal(alloc, Code::SourcePathNotFound),
            call.request.close,
        )?),
    }
}

// The same of a source that is there: the sticky bit of its directory, and the look at the destination.
fn rename_node<V: View>(
    alloc: Global,
    view: &mut V,
    call: &Call<'_>,
    asked: &Asked<'_>,
    source: Source<'_>,
) -> Result<Draft, EvalStop>
    requires call { IsCall call.now }
    requires operation { IsAsked call.now asked.now }
    requires source { IsSource (V.held view.old) (V.shown view.old) call.now asked.now source (renames (moving_of call.now asked.now) source) }
    ensures on { GoesOn (V.held view.old) (V.held view.new) (V.over view.old) (V.over view.new) (V.shown view.old) (V.shown view.new) }
    ensures evaluated { Answers (V.held view.new) (V.shown view.new) call.now result }
{
    let dir = &source.from.node;
    if let Some(reply) = guarded(alloc, call.caller, dir, asked.source, &source.top.node)? {
        return Ok(answered(alloc, source.reads, reply, call.request.close)?);
    }
    rename_to(alloc, view, call, asked, source)
}

// The same of a source that may go: the look at the destination.
fn rename_to<V: View>(
    alloc: Global,
    view: &mut V,
    call: &Call<'_>,
    asked: &Asked<'_>,
    source: Source<'_>,
) -> Result<Draft, EvalStop>
    requires call { IsCall call.now }
    requires operation { IsAsked call.now asked.now }
    requires source { IsSource (V.held view.old) (V.shown view.old) call.now asked.now source (overs (moving_of call.now asked.now) source) }
    ensures on { GoesOn (V.held view.old) (V.held view.new) (V.over view.old) (V.over view.new) (V.shown view.old) (V.shown view.new) }
    ensures evaluated { Answers (V.held view.new) (V.shown view.new) call.now result }
{
    let code = Code::RenameDestinationParentPathNotFound;
    let Source {
        mut reads,
        from,
        name,
        top,
    } = source;
    match look_at(alloc, view, call.caller, call.path, code) {
        Ok(Looked::At(spot)) => {
            reads.extend_from_slice(spot.reads.as_slice())?;
            let ends = Ends {
                reads,
                from,
                name,
                top,
                to: spot.base,
                new_name: spot.name,
                old: spot.found,
            };
            rename_ends(alloc, view, call, asked, ends)
        }
        Ok(Looked::Ended(ids, reply)) => {
            reads.extend_from_slice(ids.as_slice())?;
            Ok(answered(alloc, reads, reply, call.request.close)?)
        }
        Err(stop) => Err(stop),
    }
}

// The same of both ends.
fn rename_ends<V: View>(
    alloc: Global,
    view: &mut V,
    call: &Call<'_>,
    asked: &Asked<'_>,
    ends: Ends<'_>,
) -> Result<Draft, EvalStop>
    requires call { IsCall call.now }
    requires operation { IsAsked call.now asked.now }
    requires ends { IsEnds (V.held view.old) (V.shown view.old) call.now asked.now ends (rename_by (moving_of call.now asked.now) ends) }
    ensures on { GoesOn (V.held view.old) (V.held view.new) (V.over view.old) (V.over view.new) (V.shown view.old) (V.shown view.new) }
    ensures evaluated { Answers (V.held view.new) (V.shown view.new) call.now result }
{
    if let Some(reply) = refused(alloc, call, &ends)? {
        return Ok(answered(alloc, ends.reads, reply, call.request.close)?);
    }
    fit(alloc, view, call, asked, ends)
}

// The same where nothing is refused so far: the lengths of the paths, where they grow.
fn fit<V: View>(
    alloc: Global,
    view: &mut V,
    call: &Call<'_>,
    asked: &Asked<'_>,
    ends: Ends<'_>,
) -> Result<Draft, EvalStop>
    requires call { IsCall call.now }
    requires operation { IsAsked call.now asked.now }
    requires ends { IsEnds (V.held view.old) (V.shown view.old) call.now asked.now ends (fits (moving_of call.now asked.now) ends) }
    ensures on { GoesOn (V.held view.old) (V.held view.new) (V.over view.old) (V.over view.new) (V.shown view.old) (V.shown view.new) }
    ensures evaluated { Answers (V.held view.new) (V.shown view.new) call.now result }
{
    if may_exceed(call, asked, &ends.top.node) {
        return fit_through(alloc, view, call, asked, ends);
    }
    move_node(alloc, view, call, asked, ends)
}

// Whether a path below the node that moves may come out too long: it is a directory, and its path grows.
fn may_exceed(call: &Call<'_>, asked: &Asked<'_>, node: &NodeRef) -> bool
    requires call { IsCall call.now }
    requires operation { IsAsked call.now asked.now }
    ensures { result ≡ (is_directory (node_of node.now) && grows (moving_of call.now asked.now)) }
{
    let source = room_below(asked.source);
    let path = room_below(call.path);
    is_directory(node) && is_growth(source, path)
}

// The same node.
fn top_of(top: &Seen) -> Result<Seen, AllocError>
    ensures { IfOk result (λ seen. seen ≡ top.now) }
{
    Ok(Seen {
        id: top.id,
        node: top.node.copy()?,
    })
}

// All that moves along is read, and it moves, unless a path comes out too long.
fn fit_through<V: View>(
    alloc: Global,
    view: &mut V,
    call: &Call<'_>,
    asked: &Asked<'_>,
    ends: Ends<'_>,
) -> Result<Draft, EvalStop>
    requires call { IsCall call.now }
    requires operation { IsAsked call.now asked.now }
    requires ends { IsEnds (V.held view.old) (V.shown view.old) call.now asked.now ends (reads_all (moving_of call.now asked.now) ends) }
    ensures on { GoesOn (V.held view.old) (V.held view.new) (V.over view.old) (V.over view.new) (V.shown view.old) (V.shown view.new) }
    ensures evaluated { Answers (V.held view.new) (V.shown view.new) call.now result }
{
    let top = top_of(&ends.top)?;
    let room = room_below(call.path);
    match look_through(alloc, view, room, top) {
        Ok(through) => fit_in(alloc, view, call, asked, ends, through),
        Err(stop) => Err(stop),
    }
}

// The same once all of it was read.
fn fit_in<V: View>(
    alloc: Global,
    view: &V,
    call: &Call<'_>,
    asked: &Asked<'_>,
    ends: Ends<'_>,
    through: Through,
) -> Result<Draft, EvalStop>
    requires call { IsCall call.now }
    requires operation { IsAsked call.now asked.now }
    requires ends { IsEnds (V.held view.now) (V.shown view.now) call.now asked.now ends (reads_all (moving_of call.now asked.now) ends) }
    requires through { (room : Room) × (IsRoom call.now.path.now room × IsThrough (V.held view.now) (V.shown view.now) asked.now.source.now room through) }
    ensures { Answers (V.held view.now) (V.shown view.now) call.now result }
{
    let mut ends = ends;
    ends.reads.extend_from_slice(through.ids.as_slice())?;
    if through.too_long {
        let reply = refusal(alloc, Code::RenameTooLong);
        return Ok(answered(alloc, ends.reads, reply, call.request.close)?);
    }
    move_node(alloc, view, call, asked, ends)
}

// It moves, once the stripes of all that is written are held exclusively.
fn move_node<V: View>(
    alloc: Global,
    view: &V,
    call: &Call<'_>,
    asked: &Asked<'_>,
    ends: Ends<'_>,
) -> Result<Draft, EvalStop>
    requires call { IsCall call.now }
    requires operation { IsAsked call.now asked.now }
    requires ends { IsEnds (V.held view.now) (V.shown view.now) call.now asked.now ends (moves (moving_of call.now asked.now) ends) }
    ensures { Answers (V.held view.now) (V.shown view.now) call.now result }
{
    let meta = moved_meta(alloc, call, asked, &ends.top.node)?;
    let shift = Shift {
        old: id_of(&ends.old),
        from: ends.from.id,
        name: ends.name.copy(alloc)?,
        to: ends.to.id,
        new_name: ends.new_name.copy(alloc)?,
        id: ends.top.id,
        meta,
    };
    settle_shift(alloc, view, call, ends.reads, shift)
}

// The id of a node that was found.
fn id_of(seen: &Option<Seen>) -> Option<NodeId>
    ensures { result ≡ id_of seen.now }
{
    match seen {
        Some(seen) => Some(seen.id),
        None => None,
    }
}

// The meta of the node that moves: with the properties that are given, and the moment of the call.
fn moved_meta(
    alloc: Global,
    call: &Call<'_>,
    asked: &Asked<'_>,
    node: &NodeRef,
) -> Result<Meta, AllocError>
    ensures { IfOk result (λ meta. meta ≡ moved_meta call.now asked.now node.now) }
{
    let mut meta = node.meta(alloc)?;
    if let Some(props) = asked.props {
        meta.props = props.copy(alloc)?;
    }
    meta.moment = call.moment;
    Ok(meta)
}
