ghost use Rattle.std.specs.Prelude.{◌≡◌, true, IfOk, IsTrue};
ghost use Rattle.std.specs.List.{list_all};
ghost use Rattle.path_text.specs.Names.{fs_name_of, has_single_hyphens, is_fs_byte, is_fs_name, is_name};

use super::limits::{FS_NAME_LEAST, FS_NAME_MOST};
use std::alloc::{AllocError, Global};
use std::cmp::Ordering;
use std::marker::Model;
use std::str::from_utf8;

/// The name of a filesystem, a directory or a file: 1 to 255 bytes of UTF-8 without `/` and control bytes, and not `.` or `..`. A
/// contract sees the list of its bytes.
#[derive(Debug, Drop)]
pub struct Name {
    text: String,
}

impl Model for Name {
    ghost use Rattle.std.specs.Prelude.{List, ℕ, IsTrue};
    ghost use Rattle.std.specs.String.{string_bytes};
    ghost use Rattle.path_text.specs.Names.{is_name};

    ghost Value = { List ℕ };

    ghost view = { λ n. string_bytes n.text };

    ghost invariant = { λ n. IsTrue (is_name (string_bytes n.text)) };
}

impl Name {
    // The name of these bytes.
    pub(crate) fn of_bytes(alloc: Global, bytes: &[u8]) -> Result<Name, AllocError>
        requires { is_name bytes.now ≡ true }
        ensures { IfOk result (λ name. name ≡ bytes.now) }
    {
        match from_utf8(bytes) {
            Ok(text) => Ok(Name {
                text: String::from_str(alloc, text)?,
            }),
            Err(_) => unreachable!(),
        }
    }

    /// The bytes.
    pub fn bytes(&self) -> &[u8]
        ensures value { result.now ≡ self.now }
        ensures name { IsTrue (is_name self.now) }
    {
        self.text.as_bytes()
    }

    /// The text.
    pub fn as_str(&self) -> &str
        ensures { result.now ≡ self.now }
    {
        self.text.as_str()
    }

    /// Another name with the same bytes. The one error is want of memory.
    pub fn copy(&self, alloc: Global) -> Result<Name, AllocError>
        ensures { IfOk result (λ name. name ≡ self.now) }
    {
        Ok(Name {
            text: String::from_str(alloc, self.text.as_str())?,
        })
    }
}

impl PartialEq for Name {
    ghost use Rattle.std.specs.Prelude.{bytes_eq};
    ghost use Rattle.std.specs.Cmp.{partial_equiv_from_equiv};
    ghost use Rattle.std.specs.Cmp.Lexicographic.{nat_list_eq_equiv};

    ghost eq = { bytes_eq };

    ghost laws = { partial_equiv_from_equiv nat_list_eq_equiv };

    fn eq(&self, other: &Name) -> bool {
        self.text.as_bytes() == other.text.as_bytes()
    }
}

impl Eq for Name {
    ghost use Rattle.std.specs.Cmp.Lexicographic.{nat_list_eq_equiv};

    ghost laws = { nat_list_eq_equiv };
}

impl PartialOrd for Name {
    ghost use Rattle.std.specs.Ordering.{as_partial_cmp, nat_cmp};
    ghost use Rattle.std.specs.Cmp.Lexicographic.{slice_cmp, texts_po};

    ghost partial_cmp = { as_partial_cmp (slice_cmp nat_cmp) };

    ghost laws = { texts_po };

    fn partial_cmp(&self, other: &Name) -> Option<Ordering> {
        Some(self.cmp(other))
    }
}

impl Ord for Name {
    ghost use Rattle.std.specs.Ordering.{nat_cmp};
    ghost use Rattle.std.specs.Cmp.Lexicographic.{slice_cmp, nat_list_cmp_total};
    ghost use Rattle.std.proofs.Common.{sym, refl};
    ghost use Rattle.std.proofs.lemmas.Map.Text.{is_eq-slice_cmp};

    ghost cmp = { slice_cmp nat_cmp };

    ghost total = { nat_list_cmp_total };

    ghost matches_partial_cmp = { λ x y. refl };

    ghost matches_eq = { λ x y. sym (is_eq-slice_cmp x y) };

    fn cmp(&self, other: &Name) -> Ordering {
        self.text.as_bytes().cmp(other.text.as_bytes())
    }
}

/// The name of a filesystem. A contract sees the list of its bytes.
#[derive(Debug, Drop, PartialEq, Eq, PartialOrd, Ord)]
pub struct FsName {
    name: Name,
}

impl Model for FsName {
    ghost use Rattle.std.specs.Prelude.{List, ℕ, IsTrue};
    ghost use Rattle.path_text.specs.Names.{is_fs_name};

    ghost Value = { List ℕ };

    ghost view = { λ f. f.name };

    ghost invariant = { λ f. IsTrue (is_fs_name f.name) };

    ghost inverse = { λ name. record { name = name } };
}

impl FsName {
    // A name that names a filesystem.
    pub(crate) fn of_name(name: Name) -> FsName
        requires { is_fs_name name ≡ true }
        ensures { result ≡ name }
    {
        FsName { name }
    }

    /// The name, which a child of the account has.
    pub fn name(&self) -> &Name
        ensures value { result.now ≡ self.now }
        ensures filesystem { IsTrue (is_fs_name self.now) }
    {
        &self.name
    }

    /// The bytes.
    pub fn bytes(&self) -> &[u8]
        ensures value { result.now ≡ self.now }
        ensures filesystem { IsTrue (is_fs_name self.now) }
    {
        self.name.bytes()
    }

    /// The text.
    pub fn as_str(&self) -> &str
        ensures { result.now ≡ self.now }
    {
        self.name.as_str()
    }

    /// Another name with the same bytes. The one error is want of memory.
    pub fn copy(&self, alloc: Global) -> Result<FsName, AllocError>
        ensures { IfOk result (λ name. name ≡ self.now) }
    {
        Ok(FsName {
            name: self.name.copy(alloc)?,
        })
    }
}

/// Reads the name of a filesystem, after the rules of Azure Storage for container names: 3 to 63 lower-case letters, digits
/// and hyphens, each hyphen between two letters or digits. The answer is `None` exactly for another text; the one error is
/// want of memory.
pub fn read_fs_name(alloc: Global, text: &[u8]) -> Result<Option<FsName>, AllocError>
    ensures { IfOk result (λ name. name ≡ fs_name_of text.now) }
{
    if !is_fs_name(text) {
        return Ok(None);
    }
    Ok(Some(FsName::of_name(Name::of_bytes(alloc, text)?)))
}

pub(crate) fn is_fs_name(text: &[u8]) -> bool
    ensures { result ≡ is_fs_name text.now }
{
    FS_NAME_LEAST <= text.len()
        && text.len() <= FS_NAME_MOST
        && are_fs_bytes(text)
        && has_single_hyphens(text)
}

fn are_fs_bytes(text: &[u8]) -> bool
    ensures { result ≡ list_all is_fs_byte text.now }
{
    text.iter().all(|byte| is_fs_byte(*byte))
}

fn is_fs_byte(byte: u8) -> bool
    ensures { result ≡ is_fs_byte byte }
{
    byte.is_ascii_lowercase() || byte.is_ascii_digit() || byte == b'-'
}

fn has_single_hyphens(text: &[u8]) -> bool
    ensures { result ≡ has_single_hyphens text.now }
{
    text.split(|byte| *byte == b'-').all(|run| 1 <= run.len())
}
