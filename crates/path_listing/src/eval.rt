ghost use Rattle.std.specs.Prelude.{◌≡◌, ◌≤◌, ◌<◌, ◌^◌, ◌++◌, None, Err, IfOk};
ghost use Rattle.inode_tree.specs.Promises.{IsEvaluated, numbers_of};
ghost use Rattle.inode_tree.specs.declared.draft.EvalStop.TheVariants as stop;
ghost use Rattle.inode_tree.specs.declared.need.Need.{Need};
ghost use Rattle.lease_state.specs.declared.lease.TheConstants.{LAST_MOMENT};
ghost use Rattle.namespace_model.specs.Sound.{IsSound};
ghost use Rattle.path_listing.specs.Listed.{IsAsked, IsDirectoryOf, IsOfList, IsPage, NeedsPage, nodes_in, refusal_of};
ghost use Rattle.path_order.specs.PagesBelow.{ids_in};
ghost use Rattle.path_order.specs.Starts.{IsAtFor};
ghost use Rattle.path_walk.specs.Calls.{IsCall, Answers, GoesOn};

use super::below::read_below;
use super::body::page_reply;
use super::children::read_children;
use super::questions::refused;
use super::rows::{Page, Row, Wanted};
use inode_tree::{Draft, EvalStop, Fresh, NodeId, NodeRef, View};
use namespace_model::{Code, Op, Request};
use path_order::with_ids;
use path_walk::{Call, Find, Found, answered, look_up, missing_code, refusal, stop_reply};
use std::alloc::{AllocError, Global};

// A directory that was found.
#[derive(Drop)]
pub(crate) struct Directory {
    // The nodes that were read.
    pub(crate) reads: Vec<NodeId>,
    // The look at it.
    pub(crate) node: NodeRef,
}

/// Works out what a request for a page of what is in a directory, or of all that is below it, replies at this moment, in milliseconds
/// since 1970 (Path - List of the REST reference). The nodes from the account to the directory are read, and those of the page; where all
/// that is below is listed, also those on the way to the token. Where one of them lies in a stripe that isn't held at least shared, the
/// answer is `Need`; want of memory may come at any time.
///
/// The request is a sound one for a listing, and the moment has a date. No ids are drawn, and nothing is written.
pub fn eval_list<V: View>(
    alloc: Global,
    view: &mut V,
    request: &Request,
    moment: u64,
    fresh: &Fresh,
) -> Result<Draft, EvalStop>
    requires operation { IsOfList request.now.op }
    requires sound { IsSound request.now }
    requires moment { moment ≤ LAST_MOMENT }
    requires pass { fresh.now.pass < 64 }
    requires used { fresh.now.used < 2 ^ 40 }
    ensures on { GoesOn (V.held view.old) (V.held view.new) (V.over view.old) (V.over view.new) (V.shown view.old) (V.shown view.new) }
    ensures evaluated { IsEvaluated (V.held view.old) (V.shown view.new) request.now moment fresh.now result }
{
    match (&request.op, &request.caller) {
        (
            Op::List {
                dir,
                recursive,
                token,
                max,
            },
            Some(caller),
        ) => {
            let call = Call {
                request,
                caller,
                path: dir,
                moment,
                fresh: *fresh,
            };
            let wanted = Wanted {
                recursive: *recursive,
                token,
                max: *max,
            };
            list(alloc, view, &call, &wanted)
        }
        _ => unreachable!(),
    }
}

// The way to the directory, and what stands there.
fn list<V: View>(
    alloc: Global,
    view: &mut V,
    call: &Call<'_>,
    wanted: &Wanted<'_>,
) -> Result<Draft, EvalStop>
    requires call { IsCall call.now }
    requires operation { IsAsked call.now wanted.now }
    ensures on { GoesOn (V.held view.old) (V.held view.new) (V.over view.old) (V.over view.new) (V.shown view.old) (V.shown view.new) }
    ensures evaluated { Answers (V.held view.new) (V.shown view.new) call.now result }
{
    match look_up(alloc, view, call.path, call.caller) {
        Ok(Find { ids: reads, found }) => match found {
            Found::Node(_, node) => list_node(alloc, view, call, wanted, Directory { reads, node }),
            Found::Nothing => Ok(answered(
                alloc,
                reads,
                refusal(alloc, missing_code(call.path, Code::PathNotFound)),
                call.request.close,
            )?),
            Found::Stopped(end) => Ok(answered(
                alloc,
                reads,
                stop_reply(alloc, Code::PathNotFound, end),
                call.request.close,
            )?),
        },
        Err(stop) => Err(stop),
    }
}

// The same of a node that is there.
fn list_node<V: View>(
    alloc: Global,
    view: &mut V,
    call: &Call<'_>,
    wanted: &Wanted<'_>,
    dir: Directory,
) -> Result<Draft, EvalStop>
    requires call { IsCall call.now }
    requires operation { IsAsked call.now wanted.now }
    requires directory { IsDirectoryOf (V.held view.old) (V.shown view.old) call.now dir }
    ensures on { GoesOn (V.held view.old) (V.held view.new) (V.over view.old) (V.over view.new) (V.shown view.old) (V.shown view.new) }
    ensures evaluated { Answers (V.held view.new) (V.shown view.new) call.now result }
{
    if let Some(reply) = refused(alloc, call.caller, call.path, &dir.node)? {
        return Ok(answered(alloc, dir.reads, reply, call.request.close)?);
    }
    match read_page(alloc, view, call, wanted, &dir.node) {
        Ok(page) => tell(alloc, view, call, wanted, dir, page),
        Err(stop) => Err(stop),
    }
}

// The page that is asked for.
fn read_page<V: View>(
    alloc: Global,
    view: &mut V,
    call: &Call<'_>,
    wanted: &Wanted<'_>,
    node: &NodeRef,
) -> Result<Page, EvalStop>
    requires call { IsCall call.now }
    requires operation { IsAsked call.now wanted.now }
    requires root { IsAtFor (V.shown view.old) call.now.path.now node.now }
    ensures on { GoesOn (V.held view.old) (V.held view.new) (V.over view.old) (V.over view.new) (V.shown view.old) (V.shown view.new) }
    ensures page { IfOk result (λ page. IsPage (V.held view.new) (V.shown view.new) call.now.path.now wanted.now.recursive wanted.now.token.now wanted.now.max page) }
    ensures need { (n : Need) → result ≡ Err (stop.Need n)
        → NeedsPage (V.held view.new) (V.shown view.new) call.now.path.now wanted.now.recursive wanted.now.token.now wanted.now.max n }
{
    if wanted.recursive {
        return read_below(alloc, view, call.path, wanted, node.copy()?);
    }
    read_children(alloc, view, call.path, wanted, node)
}

// The draft by a page that was read. What was looked at stands for a tree in which each node has a date.
fn tell<V: View>(
    alloc: Global,
    view: &V,
    call: &Call<'_>,
    wanted: &Wanted<'_>,
    dir: Directory,
    page: Page,
) -> Result<Draft, EvalStop>
    requires call { IsCall call.now }
    requires operation { IsAsked call.now wanted.now }
    requires directory { IsDirectoryOf (V.held view.now) (V.shown view.now) call.now dir }
    requires passed { refusal_of call.now.caller.now call.now.path.now dir.node ≡ None }
    requires page { IsPage (V.held view.now) (V.shown view.now) call.now.path.now wanted.now.recursive wanted.now.token.now wanted.now.max page }
    ensures { Answers (V.held view.now) (V.shown view.now) call.now result }
{
    view.stands();
    let reply = page_reply(alloc, call.caller, call.path, wanted, &page)?;
    let reads = with_page(dir.reads, &page)?;
    Ok(answered(alloc, reads, reply, call.request.close)?)
}

// These ids, and behind them those of the nodes that a page reads.
fn with_page(reads: Vec<NodeId>, page: &Page) -> Result<Vec<NodeId>, AllocError>
    ensures { IfOk result (λ ids. numbers_of ids.items ≡ numbers_of reads.items ++ (ids_in page.now.way.items ++ ids_in (nodes_in page.now.rows.items))) }
{
    let ids = with_ids(reads, page.way.as_slice())?;
    with_rows(ids, page.rows.as_slice())
}

fn with_rows(reads: Vec<NodeId>, rows: &[Row]) -> Result<Vec<NodeId>, AllocError>
    ensures { IfOk result (λ ids. numbers_of ids.items ≡ numbers_of reads.items ++ ids_in (nodes_in rows.now)) }
{
    let mut ids = reads;
    for row in rows {
        ids.push(row.seen.id)?;
    }
    Ok(ids)
}
