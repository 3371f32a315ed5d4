ghost use Rattle.std.specs.Prelude.{◌≡◌, ◌≢◌, [], ◌++◌, IfOk};

use path_text::{Name, Path};
use std::alloc::{AllocError, Global};

/// The path of these names below another path, which is not the account's. The one error is want of memory.
pub fn path_below(alloc: Global, path: &Path, names: &[Name]) -> Result<Path, AllocError>
    requires below { path.now ≢ [] }
    ensures { IfOk result (λ whole. whole ≡ path.now ++ names.now) }
{
    let mut whole = path.copy(alloc)?;
    for name in names {
        let longer = whole.child(alloc, name)?;
        whole = longer;
    }
    Ok(whole)
}
