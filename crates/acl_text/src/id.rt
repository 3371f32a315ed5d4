ghost use Rattle.std.specs.Prelude.{◌≡◌, bytes_eq, IfOk, IsTrue};
ghost use Rattle.std.specs.List.{list_all};
ghost use Rattle.acl_text.specs.Ids.{id_of, is_id, is_id_byte, is_plain_id, superuser};

use std::alloc::{AllocError, Global};
use std::cmp::Ordering;
use std::marker::Model;

/// How many bytes an id has at most.
pub const ID_MAX: usize = 64;

/// The id of a caller, an owner or a group. A contract sees the list of its bytes.
#[derive(Debug, Drop)]
pub struct Id {
    bytes: Vec<u8>,
}

impl Model for Id {
    ghost use Rattle.std.specs.Prelude.{List, ℕ, IsTrue};
    ghost use Rattle.acl_text.specs.Ids.{is_id};

    ghost Value = { List ℕ };

    ghost view = { λ i. i.bytes.items };

    ghost invariant = { λ i. IsTrue (is_id i.bytes.items) };
}

impl Id {
    /// The bytes.
    pub fn bytes(&self) -> &[u8]
        ensures value { result.now ≡ self.now }
        ensures id { IsTrue (is_id self.now) }
    {
        self.bytes.as_slice()
    }

    /// `$superuser`, the id that may do all. The one error is want of memory.
    pub fn superuser(alloc: Global) -> Result<Id, AllocError>
        ensures { IfOk result (λ id. id ≡ superuser) }
    {
        Ok(Id {
            bytes: b"$superuser".as_slice().to_vec(alloc)?,
        })
    }

    /// Whether this is `$superuser`, the id that may do all.
    pub fn is_superuser(&self) -> bool
        ensures { result ≡ bytes_eq self.now superuser }
    {
        self.bytes.as_slice() == b"$superuser".as_slice()
    }

    /// Another id with the same bytes. The one error is want of memory.
    pub fn copy(&self, alloc: Global) -> Result<Id, AllocError>
        ensures { IfOk result (λ id. id ≡ self.now) }
    {
        Ok(Id {
            bytes: self.bytes.as_slice().to_vec(alloc)?,
        })
    }
}

impl PartialEq for Id {
    ghost use Rattle.std.specs.Prelude.{bytes_eq};
    ghost use Rattle.std.specs.Cmp.{partial_equiv_from_equiv};
    ghost use Rattle.std.specs.Cmp.Lexicographic.{nat_list_eq_equiv};

    ghost eq = { bytes_eq };

    ghost laws = { partial_equiv_from_equiv nat_list_eq_equiv };

    fn eq(&self, other: &Id) -> bool {
        self.bytes.as_slice() == other.bytes.as_slice()
    }
}

impl Eq for Id {
    ghost use Rattle.std.specs.Cmp.Lexicographic.{nat_list_eq_equiv};

    ghost laws = { nat_list_eq_equiv };
}

impl PartialOrd for Id {
    ghost use Rattle.std.specs.Ordering.{as_partial_cmp, nat_cmp};
    ghost use Rattle.std.specs.Cmp.Lexicographic.{slice_cmp, texts_po};

    ghost partial_cmp = { as_partial_cmp (slice_cmp nat_cmp) };

    ghost laws = { texts_po };

    fn partial_cmp(&self, other: &Id) -> Option<Ordering> {
        Some(self.cmp(other))
    }
}

impl Ord for Id {
    ghost use Rattle.std.specs.Ordering.{nat_cmp};
    ghost use Rattle.std.specs.Cmp.Lexicographic.{slice_cmp, nat_list_cmp_total};
    ghost use Rattle.std.proofs.Common.{sym, refl};
    ghost use Rattle.std.proofs.lemmas.Map.Text.{is_eq-slice_cmp};

    ghost cmp = { slice_cmp nat_cmp };

    ghost total = { nat_list_cmp_total };

    ghost matches_partial_cmp = { λ x y. refl };

    ghost matches_eq = { λ x y. sym (is_eq-slice_cmp x y) };

    fn cmp(&self, other: &Id) -> Ordering {
        self.bytes.as_slice().cmp(other.bytes.as_slice())
    }
}

/// Reads an id: `$superuser`, or 1 to 64 ASCII letters, digits, `.`, `_`, `@` and `-`. The answer is `None` exactly for another
/// text; the one error is want of memory.
pub fn read_id(alloc: Global, text: &[u8]) -> Result<Option<Id>, AllocError>
    ensures { IfOk result (λ id. id ≡ id_of text.now) }
{
    if !is_id(text) {
        return Ok(None);
    }
    Ok(Some(Id {
        bytes: text.to_vec(alloc)?,
    }))
}

fn is_id(text: &[u8]) -> bool
    ensures { result ≡ is_id text.now }
{
    text == b"$superuser".as_slice() || is_plain_id(text)
}

fn is_plain_id(text: &[u8]) -> bool
    ensures { result ≡ is_plain_id text.now }
{
    1 <= text.len() && text.len() <= ID_MAX && are_id_bytes(text)
}

fn are_id_bytes(text: &[u8]) -> bool
    ensures { result ≡ list_all is_id_byte text.now }
{
    text.iter().all(|byte| is_id_byte(*byte))
}

fn is_id_byte(byte: u8) -> bool
    ensures { result ≡ is_id_byte byte }
{
    byte.is_ascii_alphanumeric() || byte == b'.' || byte == b'_' || byte == b'@' || byte == b'-'
}
