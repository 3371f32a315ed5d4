//! A page of a listing, as it is read.
ghost use Rattle.std.specs.Prelude.{◌≡◌, [], ◌∷◌, ◌++◌, false, OnOk};

use path_order::Seen;
use path_text::{Name, Path};
use std::alloc::{AllocError, Global};

// What of a directory is asked for.
#[derive(Clone, Copy)]
pub(crate) struct Wanted<'a> {
    // Whether all that is below it is listed, and not its children alone.
    pub(crate) recursive: bool,
    // The path behind which the page begins.
    pub(crate) token: &'a Option<Path>,
    // The most paths that the page may have.
    pub(crate) max: u32,
}

// A node that is listed.
#[derive(Drop)]
pub(crate) struct Row {
    // The look at it.
    pub(crate) seen: Seen,
    // The names to it from the directory.
    pub(crate) names: Vec<Name>,
}

// What was read of a directory.
#[derive(Drop)]
pub(crate) struct Page {
    // The nodes on the way to the token, in path order.
    pub(crate) way: Vec<Seen>,
    // The nodes that are listed, in path order.
    pub(crate) rows: Vec<Row>,
    // Whether more is left behind the last of them.
    pub(crate) more: bool,
}

// A page of nothing.
pub(crate) fn no_page(alloc: Global) -> Page
    ensures way { result.way.items ≡ [] }
    ensures rows { result.rows.items ≡ [] }
    ensures more { result.more ≡ false }
{
    Page {
        way: Vec::new(alloc),
        rows: Vec::new(alloc),
        more: false,
    }
}

// Puts a node with these names behind the others.
pub(crate) fn put_row(rows: &mut Vec<Row>, seen: Seen, names: Vec<Name>) -> Result<(), AllocError>
    ensures { OnOk result (rows.new.items ≡ rows.old.items ++ record { seen = seen; names = names } ∷ []) }
{
    rows.push(Row { seen, names })?;
    Ok(())
}
