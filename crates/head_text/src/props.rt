ghost use Rattle.std.specs.Prelude.{◌≡◌, [], map, IfOk};
ghost use Rattle.head_text.specs.Properties.{property_of, IsProperties};

use super::header_list::copy_pairs;
use std::alloc::{AllocError, Global};
use std::marker::Model;

/// The properties of a node or of a filesystem: names with values. A contract sees a list of pairs, the name and the value, both as
/// bytes, ascending by name.
///
/// Each name has one or more ASCII letters, digits, `_` or `-`, and stands once; there are at most 64 pairs.
#[derive(Debug, Drop)]
pub struct Props {
    pairs: Vec<(Vec<u8>, Vec<u8>)>,
}

impl Model for Props {
    ghost use Rattle.std.specs.Prelude.{List, ℕ, map};
    ghost use Rattle.head_text.specs.Properties.{property_of, IsProperties};

    ghost Value = { List (List ℕ × List ℕ) };

    ghost view = { λ p. map property_of p.pairs.items };

    ghost invariant = { λ p. IsProperties (map property_of p.pairs.items) };
}

impl Props {
    /// No properties.
    pub fn none(alloc: Global) -> Props
        ensures { result ≡ [] }
    {
        Props {
            pairs: Vec::new(alloc),
        }
    }

    // Keeps the pairs that it is given.
    pub(crate) fn new(pairs: Vec<(Vec<u8>, Vec<u8>)>) -> Props
        requires { IsProperties (map property_of pairs.items) }
        ensures { result ≡ map property_of pairs.items }
    {
        Props { pairs }
    }

    /// The pairs, ascending by name.
    pub fn pairs(&self) -> &[(Vec<u8>, Vec<u8>)]
        ensures pairs { map property_of result.now ≡ self.now }
        ensures properties { IsProperties self.now }
    {
        self.pairs.as_slice()
    }

    /// Another list with the same pairs. The one error is want of memory.
    pub fn copy(&self, alloc: Global) -> Result<Props, AllocError>
        ensures { IfOk result (λ props. props ≡ self.now) }
    {
        Ok(Props {
            pairs: copy_pairs(alloc, self.pairs.as_slice())?,
        })
    }
}
