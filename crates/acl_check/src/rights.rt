ghost use Rattle.std.specs.Prelude.{◌≡◌};
ghost use Rattle.namespace_model.specs.Access.{belongs_to, is_superuser, may_set_access, may_set_group, may_set_owner, sticky_lets};

use acl_text::Id;
use namespace_model::Caller;

/// Whether the caller is `$superuser`. Calls on filesystems are for it alone.
pub fn is_superuser(caller: &Caller) -> bool
    ensures { result ≡ is_superuser caller.now }
{
    caller.id.is_superuser()
}

pub(crate) fn belongs_to(caller: &Caller, group: &Id) -> bool
    ensures { result ≡ belongs_to caller.now group.now }
{
    caller.groups.items().iter().any(|id| group == id)
}

/// Whether a caller may delete, rename or overwrite a child of a directory, as far as the sticky bit goes: anyone where the
/// directory hasn't the bit, and else the child's owner, the directory's owner and the superuser alone.
pub fn sticky_allows(dir_sticky: bool, dir_owner: &Id, child_owner: &Id, caller: &Caller) -> bool
    ensures { result ≡ sticky_lets dir_sticky dir_owner.now child_owner.now caller.now }
{
    !dir_sticky || is_superuser(caller) || caller.id == *child_owner || caller.id == *dir_owner
}

/// Whether a caller may set the access control lists and the permissions of a node with this owner: the owner and the superuser
/// alone.
pub fn may_chmod(owner: &Id, caller: &Caller) -> bool
    ensures { result ≡ may_set_access owner.now caller.now }
{
    is_superuser(caller) || caller.id == *owner
}

/// Whether a caller may name this owner for a node with that owner: anyone who may set its lists may name the present one, and
/// the superuser alone another one. Whether the caller may set the lists is `may_chmod`.
pub fn may_chown(owner: &Id, new_owner: &Id, caller: &Caller) -> bool
    ensures { result ≡ may_set_owner owner.now new_owner.now caller.now }
{
    is_superuser(caller) || new_owner == owner
}

/// Whether a caller may name this group for a node with that owner and group: the present one, and another one as the superuser,
/// or as the owner that belongs to it.
pub fn may_chgrp(owner: &Id, group: &Id, new_group: &Id, caller: &Caller) -> bool
    ensures { result ≡ may_set_group owner.now group.now new_group.now caller.now }
{
    is_superuser(caller)
        || new_group == group
        || caller.id == *owner && belongs_to(caller, new_group)
}
