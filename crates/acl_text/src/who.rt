ghost use Rattle.std.specs.Prelude.{◌≡◌, IfOk, IsTrue};
ghost use Rattle.acl_text.specs.Whos.{who_cmp, rank, id_in, is_whose, is_named, is_base, is_mask, is_limited};

use crate::id::Id;
use std::alloc::{AllocError, Global};
use std::cmp::Ordering;

/// Whom an entry of an access control list is for. The variants stand in the order in which entries are printed, named users
/// and groups among themselves by the bytes of their ids.
#[derive(Debug, Drop)]
pub enum Who {
    /// The owner of the file or directory.
    Owner,
    /// A named user.
    User(Id),
    /// The owning group.
    OwningGroup,
    /// A named group.
    Group(Id),
    /// The mask, which limits the entries of named users, the owning group and named groups.
    Mask,
    /// All others.
    Other,
}

impl Who {
    /// Another value that is equal. The one error is want of memory.
    pub fn copy(&self, alloc: Global) -> Result<Who, AllocError>
        ensures { IfOk result (λ who. who ≡ self.now) }
    {
        Ok(match self {
            Who::Owner => Who::Owner,
            Who::User(id) => Who::User(id.copy(alloc)?),
            Who::OwningGroup => Who::OwningGroup,
            Who::Group(id) => Who::Group(id.copy(alloc)?),
            Who::Mask => Who::Mask,
            Who::Other => Who::Other,
        })
    }

    // The bytes of the id of a named user or group, and none for all others.
    pub(crate) fn id(&self) -> &[u8]
        ensures value { result.now ≡ id_in self.now }
        ensures id { IsTrue (is_whose self.now) }
    {
        match self {
            Who::User(id) | Who::Group(id) => id.bytes(),
            Who::Owner | Who::OwningGroup | Who::Mask | Who::Other => b"".as_slice(),
        }
    }

    pub(crate) fn is_named(&self) -> bool
        ensures { result ≡ is_named self.now }
    {
        matches!(self, Who::User(_) | Who::Group(_))
    }

    pub(crate) fn is_base(&self) -> bool
        ensures { result ≡ is_base self.now }
    {
        matches!(self, Who::Owner | Who::OwningGroup | Who::Other)
    }

    pub(crate) fn is_mask(&self) -> bool
        ensures { result ≡ is_mask self.now }
    {
        matches!(self, Who::Mask)
    }

    pub(crate) fn is_limited(&self) -> bool
        ensures { result ≡ is_limited self.now }
    {
        matches!(self, Who::User(_) | Who::OwningGroup | Who::Group(_))
    }
}

impl PartialEq for Who {
    ghost use Rattle.std.specs.Ordering.{eq_by_cmp, nat_cmp};
    ghost use Rattle.std.specs.Cmp.{partial_equiv_from_equiv, eq_by_cmp_equiv, then_total, on_total, nat_cmp_total};
    ghost use Rattle.std.specs.Cmp.Lexicographic.{nat_list_cmp_total};
    ghost use Rattle.acl_text.specs.Whos.{who_cmp, rank, id_in};

    ghost eq = { eq_by_cmp who_cmp };

    ghost laws = { partial_equiv_from_equiv (eq_by_cmp_equiv (then_total (on_total rank nat_cmp_total) (on_total id_in nat_list_cmp_total))) };

    fn eq(&self, other: &Who) -> bool {
        compare(self, other) == Ordering::Equal
    }
}

impl Eq for Who {
    ghost use Rattle.std.specs.Cmp.{eq_by_cmp_equiv, then_total, on_total, nat_cmp_total};
    ghost use Rattle.std.specs.Cmp.Lexicographic.{nat_list_cmp_total};
    ghost use Rattle.acl_text.specs.Whos.{rank, id_in};

    ghost laws = { eq_by_cmp_equiv (then_total (on_total rank nat_cmp_total) (on_total id_in nat_list_cmp_total)) };
}

impl PartialOrd for Who {
    ghost use Rattle.std.specs.Ordering.{as_partial_cmp};
    ghost use Rattle.std.specs.Cmp.{partial_order_from_total, then_total, on_total, nat_cmp_total};
    ghost use Rattle.std.specs.Cmp.Lexicographic.{nat_list_cmp_total};
    ghost use Rattle.acl_text.specs.Whos.{who_cmp, rank, id_in};

    ghost partial_cmp = { as_partial_cmp who_cmp };

    ghost laws = { partial_order_from_total (then_total (on_total rank nat_cmp_total) (on_total id_in nat_list_cmp_total)) };

    fn partial_cmp(&self, other: &Who) -> Option<Ordering> {
        Some(compare(self, other))
    }
}

// The order in which entries are printed.
impl Ord for Who {
    ghost use Rattle.std.specs.Cmp.{then_total, on_total, nat_cmp_total};
    ghost use Rattle.std.specs.Cmp.Lexicographic.{nat_list_cmp_total};
    ghost use Rattle.std.proofs.Common.{refl};
    ghost use Rattle.acl_text.specs.Whos.{who_cmp, rank, id_in};

    ghost cmp = { who_cmp };

    ghost total = { then_total (on_total rank nat_cmp_total) (on_total id_in nat_list_cmp_total) };

    ghost matches_partial_cmp = { λ x y. refl };

    ghost matches_eq = { λ x y. refl };

    fn cmp(&self, other: &Who) -> Ordering {
        compare(self, other)
    }
}

// By kind, and then by the bytes of the id.
fn compare(a: &Who, b: &Who) -> Ordering
    ensures { result ≡ who_cmp a.now b.now }
{
    match (a, b) {
        (Who::User(x), Who::User(y)) | (Who::Group(x), Who::Group(y)) => x.cmp(y),
        _ => rank(a).cmp(&rank(b)),
    }
}

fn rank(who: &Who) -> u8
    ensures { result ≡ rank who.now }
{
    match who {
        Who::Owner => 0,
        Who::User(_) => 1,
        Who::OwningGroup => 2,
        Who::Group(_) => 3,
        Who::Mask => 4,
        Who::Other => 5,
    }
}
