ghost use Rattle.std.specs.Prelude.{◌≡◌, true, IfOk};
ghost use Rattle.path_text.specs.Names.{are_parts};

use super::name::{FsName, Name};
use super::parts::Parts;
use std::alloc::{AllocError, Global};
use std::cmp::Ordering;
use std::marker::Model;

// What a path has below the account.
#[derive(Debug, Drop)]
struct Place {
    fs: FsName,
    names: Vec<Name>,
}

/// A path of the namespace. A contract sees the list of its parts: the filesystem's name, then the names below it. The empty
/// path is the account.
#[derive(Debug, Drop)]
pub struct Path {
    place: Option<Place>,
}

impl Model for Path {
    ghost use Rattle.std.specs.Prelude.{List, ℕ, IsTrue};
    ghost use Rattle.path_text.specs.Names.{are_parts};

    ghost Value = { List (List ℕ) };

    ghost use Rattle.path_text.specs.Parts.{parts_of};

    ghost view = { λ p. parts_of p.place };

    ghost invariant = { λ p. IsTrue (are_parts (parts_of p.place)) };
}

impl Path {
    ghost use Rattle.std.specs.Option.{option_copied};
    ghost use Rattle.std.specs.Prelude.{◌≡◌, ◌≢◌, ◌↔◌, [], ◌∷◌, ◌++◌, ◌<◌, ◌≤◌, true, length, take, drop, slice_get, vec_len, Some, IfOk, IfSome, IsNone, IsTrue};
    ghost use Rattle.path_text.specs.Names.{are_parts, is_fs_name};
    ghost use Rattle.path_text.specs.Parts.{parts_left};
    ghost use Rattle.path_text.specs.Paths.{path_cmp, is_prefix, parent};

    /// The root of a filesystem.
    pub fn root(alloc: Global, fs: FsName) -> Path
        ensures { result ≡ fs ∷ [] }
    {
        let _name = fs.name();
        Path {
            place: Some(Place {
                fs,
                names: Vec::new(alloc),
            }),
        }
    }

    // The path above every filesystem.
    pub(crate) fn account() -> Path
        ensures { result ≡ [] }
    {
        Path { place: None }
    }

    // The path with these parts.
    pub(crate) fn of_parts(mut names: Vec<Name>) -> Path
        requires some { 0 < vec_len names }
        requires parts { are_parts names.items ≡ true }
        ensures { result ≡ names.items }
    {
        let fs = FsName::of_name(names.remove(0));
        Path {
            place: Some(Place { fs, names }),
        }
    }

    /// The name of the filesystem: `None` exactly for the account.
    pub fn fs(&self) -> Option<&FsName>
        ensures { option_copied result ≡ slice_get self.now 0 }
    {
        match &self.place {
            Some(place) => Some(&place.fs),
            None => None,
        }
    }

    /// The names below the filesystem, from the left. It takes no memory.
    pub fn names(&self) -> &[Name]
        ensures { result.now ≡ drop 1 self.now }
    {
        match &self.place {
            Some(place) => place.names.as_slice(),
            None => &[],
        }
    }

    /// The parts from the left, the filesystem's name first. It takes no memory.
    pub fn parts(&self) -> Parts<'_>
        ensures value { parts_left result ≡ self.now }
        ensures parts { IsTrue (are_parts self.now) }
    {
        match &self.place {
            Some(place) => Parts::new(Some(&place.fs), place.names.as_slice()),
            None => Parts::new(None, &[]),
        }
    }

    /// How many parts there are, the filesystem counted.
    pub fn depth(&self) -> usize
        ensures { result ≡ length self.now }
    {
        match &self.place {
            Some(place) => place.names.len() + 1,
            None => 0,
        }
    }

    /// The part at a place, counted from 0 with the filesystem. It takes no memory.
    pub fn part(&self, place: usize) -> &Name
        requires within { place < length self.now }
        ensures { slice_get self.now place ≡ Some result.now }
    {
        match &self.place {
            Some(parts) => {
                if place == 0 {
                    parts.fs.name()
                } else {
                    &parts.names.as_slice()[place - 1]
                }
            }
            None => unreachable!(),
        }
    }

    /// The last name: `None` exactly for the account. It takes no memory.
    pub fn last_name(&self) -> Option<&Name>
        ensures none { IsNone result ↔ (self.now ≡ []) }
        ensures last { IfSome result (λ name. self.now ≡ parent self.now ++ name.now ∷ []) }
    {
        let depth = self.depth();
        if depth == 0 {
            return None;
        }
        Some(self.part(depth - 1))
    }

    /// The path without its last name. The one error is want of memory.
    pub fn parent(&self, alloc: Global) -> Result<Path, AllocError>
        requires below { self.now ≢ [] }
        ensures { IfOk result (λ path. path ≡ parent self.now) }
    {
        self.front(alloc, self.depth() - 1)
    }

    /// The path without its last name, and that name. The one error is want of memory.
    pub fn split_last(&self, alloc: Global) -> Result<(Path, &Name), AllocError>
        requires below { self.now ≢ [] }
        ensures whole { IfOk result (λ split. self.now ≡ split.0 ++ split.1.now ∷ []) }
        ensures parent { IfOk result (λ split. split.0 ≡ parent self.now) }
    {
        let path = self.parent(alloc)?;
        match self.last_name() {
            Some(name) => Ok((path, name)),
            None => unreachable!(),
        }
    }

    /// The path of the first parts, as many as are asked for. The one error is want of memory.
    pub fn front(&self, alloc: Global, parts: usize) -> Result<Path, AllocError>
        requires { parts ≤ length self.now }
        ensures { IfOk result (λ path. path ≡ take parts self.now) }
    {
        match &self.place {
            Some(place) => {
                if parts == 0 {
                    return Ok(Path::account());
                }
                Ok(Path {
                    place: Some(Place {
                        fs: place.fs.copy(alloc)?,
                        names: copy_names(alloc, &place.names.as_slice()[..parts - 1])?,
                    }),
                })
            }
            None => Ok(Path::account()),
        }
    }

    /// The order of paths: by the first name that differs, names by their bytes. A path stands before what is below it.
    pub fn cmp(&self, other: &Path) -> Ordering
        ensures { result ≡ path_cmp self.now other.now }
    {
        self.order(other)
    }

    // How two paths stand to each other.
    fn order(&self, other: &Path) -> Ordering
        ensures { result ≡ path_cmp self.now other.now }
    {
        match (&self.place, &other.place) {
            (Some(place), Some(others)) => match place.fs.cmp(&others.fs) {
                Ordering::Equal => place.names.as_slice().cmp(others.names.as_slice()),
                unequal => unequal,
            },
            (Some(_), None) => Ordering::Greater,
            (None, Some(_)) => Ordering::Less,
            (None, None) => Ordering::Equal,
        }
    }

    /// Whether the other path is this one or below it: it begins with the parts of this one.
    pub fn is_prefix_of(&self, other: &Path) -> bool
        ensures { result ≡ is_prefix self.now other.now }
    {
        match (&self.place, &other.place) {
            (Some(place), Some(others)) => {
                place.fs == others.fs && others.names.as_slice().starts_with(place.names.as_slice())
            }
            (Some(_), None) => false,
            (None, _) => true,
        }
    }

    /// The path with one name more. On the account the name is that of a filesystem, which `is_fs_name` of the contract says. The
    /// limits on length and depth are not looked at. The one error is want of memory.
    pub fn child(&self, alloc: Global, name: &Name) -> Result<Path, AllocError>
        requires filesystem { self.now ≡ [] → is_fs_name name.now ≡ true }
        ensures { IfOk result (λ path. path ≡ self.now ++ name.now ∷ []) }
    {
        let _name = name.bytes();
        match &self.place {
            Some(place) => {
                let mut names = copy_names(alloc, place.names.as_slice())?;
                names.push(name.copy(alloc)?)?;
                Ok(Path {
                    place: Some(Place {
                        fs: place.fs.copy(alloc)?,
                        names,
                    }),
                })
            }
            None => Ok(Path::root(alloc, FsName::of_name(name.copy(alloc)?))),
        }
    }

    /// Another path with the same parts. The one error is want of memory.
    pub fn copy(&self, alloc: Global) -> Result<Path, AllocError>
        ensures { IfOk result (λ path. path ≡ self.now) }
    {
        match &self.place {
            Some(place) => Ok(Path {
                place: Some(Place {
                    fs: place.fs.copy(alloc)?,
                    names: copy_names(alloc, place.names.as_slice())?,
                }),
            }),
            None => Ok(Path { place: None }),
        }
    }
}

impl PartialEq for Path {
    ghost use Rattle.std.specs.Ordering.{eq_by_cmp};
    ghost use Rattle.std.specs.Cmp.{partial_equiv_from_equiv};
    ghost use Rattle.path_text.specs.Paths.{path_cmp, path_eq_equiv};

    ghost eq = { eq_by_cmp path_cmp };

    ghost laws = { partial_equiv_from_equiv path_eq_equiv };

    fn eq(&self, other: &Path) -> bool {
        self.order(other).is_eq()
    }
}

impl Eq for Path {
    ghost use Rattle.path_text.specs.Paths.{path_eq_equiv};

    ghost laws = { path_eq_equiv };
}

impl PartialOrd for Path {
    ghost use Rattle.std.specs.Ordering.{as_partial_cmp};
    ghost use Rattle.std.specs.Cmp.{partial_order_from_total};
    ghost use Rattle.path_text.specs.Paths.{path_cmp, path_cmp_total};

    ghost partial_cmp = { as_partial_cmp path_cmp };

    ghost laws = { partial_order_from_total path_cmp_total };

    fn partial_cmp(&self, other: &Path) -> Option<Ordering> {
        Some(self.order(other))
    }
}

impl Ord for Path {
    ghost use Rattle.std.proofs.Common.{refl};
    ghost use Rattle.path_text.specs.Paths.{path_cmp, path_cmp_total};

    ghost cmp = { path_cmp };

    ghost total = { path_cmp_total };

    ghost matches_partial_cmp = { λ x y. refl };

    ghost matches_eq = { λ x y. refl };

    fn cmp(&self, other: &Path) -> Ordering {
        self.order(other)
    }
}

fn copy_names(alloc: Global, names: &[Name]) -> Result<Vec<Name>, AllocError>
    ensures { IfOk result (λ copied. copied.items ≡ names.now) }
{
    let mut copied = Vec::with_capacity(alloc, names.len())?;
    for name in names {
        copied.push(name.copy(alloc)?)?;
    }
    Ok(copied)
}
