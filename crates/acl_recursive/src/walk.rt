//! The nodes at a path and below it, behind a token, one after the other.
ghost use Rattle.std.specs.Prelude.{◌≡◌, ◌≢◌, [], ◌∷◌, Err, IfOk};
ghost use Rattle.inode_tree.specs.Parts.{Parts};
ghost use Rattle.inode_tree.specs.Stands.{Stands};
ghost use Rattle.inode_tree.specs.Views.{Agrees, Held, Shown};
ghost use Rattle.inode_tree.specs.declared.draft.EvalStop.TheVariants as stop;
ghost use Rattle.inode_tree.specs.declared.need.Need.{Need};
ghost use Rattle.namespace_model.specs.Trees.{Path, Tree};
ghost use Rattle.path_order.specs.PagesBelow.{below};
ghost use Rattle.path_order.specs.Starts.{NeedsOnTheWay};
ghost use Rattle.path_walk.specs.Calls.{GoesOn};
ghost use Rattle.acl_recursive.specs.Batched.{IsAhead, IsBeginning, IsEndOf, IsStepOf, IsTopOf, NeedsLeft, left_at};

use inode_tree::{EvalStop, View};
use path_order::{Cursor, Seen, behind};
use path_text::{Name, Path};
use std::alloc::{AllocError, Global};
use std::cmp::Ordering;

// A node that comes.
#[derive(Drop)]
pub(crate) struct Step {
    // The look at it.
    pub(crate) seen: Seen,
    // The names to it from the path of the batch.
    pub(crate) names: Vec<Name>,
}

// What is still to come.
#[derive(Drop)]
pub(crate) struct Walk {
    // The node of the path itself, where it is still to come.
    pub(crate) first: Option<Seen>,
    // The walk below it.
    pub(crate) cursor: Cursor,
}

// A walk that began behind a token.
#[derive(Drop)]
pub(crate) struct Beginning {
    pub(crate) walk: Walk,
    // The nodes below the path on the way to the token, in path order.
    pub(crate) way: Vec<Seen>,
}

// The nodes at a path and below it, behind a token where one is given; `None` where the token stands behind all of
// them. Each node below the path that is there on the way to the token is looked at, for which its stripe has to be
// held at least shared: where it isn't, the answer is `Need`. Want of memory may come at any time.
pub(crate) fn begin<V: View>(
    alloc: Global,
    view: &mut V,
    dir: &Path,
    top: &Seen,
    token: &Option<Path>,
) -> Result<Option<Beginning>, EvalStop>
    requires path { dir.now ≢ [] }
    requires top { IsTopOf (V.held view.old) (V.shown view.old) dir.now top.now }
    ensures on { GoesOn (V.held view.old) (V.held view.new) (V.over view.old) (V.over view.new) (V.shown view.old) (V.shown view.new) }
    ensures begins { IfOk result (λ b. IsBeginning (V.held view.new) (V.shown view.new) dir.now token.now b) }
    ensures need { (n : Need) → result ≡ Err (stop.Need n) → NeedsOnTheWay (V.held view.new) (V.shown view.new) dir.now token.now n }
{
    let Some(token) = token else {
        return Ok(Some(at_top(alloc, top)?));
    };
    if dir.is_prefix_of(token) {
        let names = &token.names()[dir.names().len()..];
        return match behind(alloc, view, top.node.copy()?, names) {
            Ok(start) => Ok(Some(Beginning {
                walk: Walk {
                    first: None,
                    cursor: start.cursor,
                },
                way: start.seen,
            })),
            Err(stop) => Err(stop),
        };
    }
    match dir.cmp(token) {
        Ordering::Less => Ok(None),
        _ => Ok(Some(at_top(alloc, top)?)),
    }
}

// All of them.
fn at_top(alloc: Global, top: &Seen) -> Result<Beginning, AllocError>
    ensures walk { IfOk result (λ b. (held : Held) (shown : Shown) (p : Path) → IsTopOf held shown p top.now
        → IsAhead held shown p p b.walk) }
    ensures all { IfOk result (λ b. (t : Tree) (p : Path) → left_at t p p b.walk ≡ p ∷ below t p) }
    ensures way { IfOk result (λ b. b.way.items ≡ []) }
{
    Ok(Beginning {
        walk: Walk {
            first: Some(Seen {
                id: top.id,
                node: top.node.copy()?,
            }),
            cursor: Cursor::start(alloc, top.node.copy()?),
        },
        way: Vec::new(alloc),
    })
}

impl Walk {
    // The node that comes next, which is looked at, for which its stripe has to be held at least shared: where it
    // isn't, the answer is `Need`. Nothing else is looked at. It is `None` at the end. Want of memory may come at any
    // time.
    pub(crate) fn next<V: View>(
        &mut self,
        alloc: Global,
        view: &mut V,
    ) -> Result<Option<Step>, EvalStop>
        requires walk { (dir : Path) × (from : Path) × IsAhead (V.held view.old) (V.shown view.old) dir from self.old }
        ensures on { GoesOn (V.held view.old) (V.held view.new) (V.over view.old) (V.over view.new) (V.shown view.old) (V.shown view.new) }
        ensures step { IfOk result (λ step. (dir from : Path) → IsAhead (V.held view.old) (V.shown view.old) dir from self.old
            → IsStepOf (V.held view.new) (V.shown view.new) dir from self.old self.new step) }
        ensures need { (n : Need) → result ≡ Err (stop.Need n) → (dir from : Path)
            → IsAhead (V.held view.old) (V.shown view.old) dir from self.old
            → NeedsLeft (V.held view.new) (V.shown view.old) dir from self.old n }
    {
        if let Some(seen) = self.first.take() {
            return Ok(Some(Step {
                seen,
                names: Vec::new(alloc),
            }));
        }
        match self.cursor.next(alloc, view) {
            Ok(Some(seen)) => {
                let names = self.cursor.names(alloc)?;
                Ok(Some(Step { seen, names }))
            }
            Ok(None) => Ok(None),
            Err(stop) => Err(stop),
        }
    }

    // Whether nothing is still to come. It looks at nothing.
    pub(crate) fn is_at_end(&self) -> bool
        ensures { (held : Held) (shown : Shown) (dir from : Path) → IsAhead held shown dir from self.now
            → (parts : Parts) (t : Tree) → Stands parts t → Agrees shown parts → IsEndOf (left_at t dir from self.now) result }
    {
        if self.first.is_some() {
            return false;
        }
        self.cursor.is_at_end()
    }
}
