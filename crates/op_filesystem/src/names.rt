//! The account, and the names of the filesystems in it.
ghost use Rattle.std.specs.Prelude.{◌≡◌, [], option_map, option_and_then, slice_get, IfOk};
ghost use Rattle.op_filesystem.specs.Listed.{begins, IsNextNamed};

use inode_tree::{NodeId, NodeRef};
use path_text::{Name, Path, read_fs_name};
use path_walk::child_above;
use std::alloc::{AllocError, Global};

// The path above every filesystem.
pub(crate) fn account_path(alloc: Global) -> Result<Path, AllocError>
    ensures { IfOk result (λ path. path ≡ []) }
{
    match read_fs_name(alloc, b"account")? {
        Some(fs) => Path::root(alloc, fs).parent(alloc),
        None => unreachable!(),
    }
}

// The first name of a token.
pub(crate) fn first_name(token: &Option<Path>) -> Option<&Name>
    ensures { option_map (λ n. n.now) result ≡ option_and_then (λ p. slice_get p 0) token.now }
{
    match token {
        Some(path) => match path.fs() {
            Some(fs) => Some(fs.name()),
            None => None,
        },
        None => None,
    }
}

// The first child of the account whose name begins with a prefix and is greater than a name, and the first of all with
// the prefix where no name is given. Nothing is looked at.
pub(crate) fn next_named<'a>(
    account: &'a NodeRef,
    prefix: &[u8],
    from: Option<&'a Name>,
) -> Result<Option<(&'a Name, NodeId)>, AllocError>
    ensures { IfOk result (λ next. IsNextNamed account.now prefix.now (option_map (λ n. n.now) from.entry)
        (option_map (λ c. (c.0.now, c.1.0)) next)) }
{
    let mut last = from;
    for _count in 0..u64::MAX {
        match child_above(account, last) {
            Some((name, id)) => {
                if begins(name, prefix) {
                    return Ok(Some((name, id)));
                }
                last = Some(name);
            }
            None => return Ok(None),
        }
    }
    Err(AllocError)
}

// Whether a name begins with these bytes.
fn begins(name: &Name, prefix: &[u8]) -> bool
    ensures { result ≡ begins prefix.now name.now }
{
    name.bytes().starts_with(prefix)
}
