ghost use Rattle.std.specs.Prelude.{◌≡◌, IfOk};

use acl_text::{AclList, Id};
use head_text::Props;
use path_text::Path;
use std::alloc::{AllocError, Global};

// Copies of optional values. The one error of each is want of memory.

pub(crate) fn copy_path(alloc: Global, path: &Option<Path>) -> Result<Option<Path>, AllocError>
    ensures { IfOk result (λ copied. copied ≡ path.now) }
{
    match path {
        Some(path) => Ok(Some(path.copy(alloc)?)),
        None => Ok(None),
    }
}

pub(crate) fn copy_props(alloc: Global, props: &Option<Props>) -> Result<Option<Props>, AllocError>
    ensures { IfOk result (λ copied. copied ≡ props.now) }
{
    match props {
        Some(props) => Ok(Some(props.copy(alloc)?)),
        None => Ok(None),
    }
}

pub(crate) fn copy_id(alloc: Global, id: &Option<Id>) -> Result<Option<Id>, AllocError>
    ensures { IfOk result (λ copied. copied ≡ id.now) }
{
    match id {
        Some(id) => Ok(Some(id.copy(alloc)?)),
        None => Ok(None),
    }
}

pub(crate) fn copy_acl(alloc: Global, acl: &Option<AclList>) -> Result<Option<AclList>, AllocError>
    ensures { IfOk result (λ copied. copied ≡ acl.now) }
{
    match acl {
        Some(acl) => Ok(Some(acl.copy(alloc)?)),
        None => Ok(None),
    }
}
