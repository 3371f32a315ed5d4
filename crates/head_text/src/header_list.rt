ghost use Rattle.std.specs.Prelude.{◌≡◌, map, IfOk};
ghost use Rattle.std.specs.Option.{option_copied};
ghost use Rattle.head_text.specs.Headers.{first_header, header_of};

use super::header_name::is_same_name;
use std::alloc::{AllocError, Global};
use std::marker::Model;

/// The headers of a request in their order. A contract sees a list of pairs, the name and the value, both as bytes.
#[derive(Debug, Drop)]
pub struct HeaderList {
    pairs: Vec<(Vec<u8>, Vec<u8>)>,
}

impl Model for HeaderList {
    ghost use Rattle.std.specs.Prelude.{List, ℕ, map};
    ghost use Rattle.head_text.specs.Headers.{header_of};

    ghost Value = { List (List ℕ × List ℕ) };

    ghost view = { λ h. map header_of h.pairs.items };
}

impl HeaderList {
    /// Keeps the pairs that it is given.
    pub fn new(pairs: Vec<(Vec<u8>, Vec<u8>)>) -> HeaderList
        ensures { result ≡ map header_of pairs.items }
    {
        HeaderList { pairs }
    }

    /// The pairs.
    pub fn pairs(&self) -> &[(Vec<u8>, Vec<u8>)]
        ensures { map header_of result.now ≡ self.now }
    {
        self.pairs.as_slice()
    }

    /// The value of the first header of this name, whatever the case of its letters (RFC 9110, section 5.1).
    pub fn first<'a>(&'a self, name: &[u8]) -> Option<&'a [u8]>
        ensures { option_copied result ≡ first_header name.now self.now }
    {
        first_header(self.pairs.as_slice(), name)
    }

    /// Another list with the same pairs. The one error is want of memory.
    pub fn copy(&self, alloc: Global) -> Result<HeaderList, AllocError>
        ensures { IfOk result (λ list. list ≡ self.now) }
    {
        Ok(HeaderList {
            pairs: copy_pairs(alloc, self.pairs.as_slice())?,
        })
    }
}

#[tactic(auto, unfolding(crate::specs::Headers::first_header))]
fn first_header<'a>(headers: &'a [(Vec<u8>, Vec<u8>)], name: &[u8]) -> Option<&'a [u8]>
    ensures { option_copied result ≡ first_header name.now (map header_of headers.now) }
{
    for header in headers {
        if is_same_name(header.0.as_slice(), name) {
            return Some(header.1.as_slice());
        }
    }
    None
}

pub(crate) fn copy_pairs(
    alloc: Global,
    pairs: &[(Vec<u8>, Vec<u8>)],
) -> Result<Vec<(Vec<u8>, Vec<u8>)>, AllocError>
    ensures { IfOk result (λ copied. map header_of copied.items ≡ map header_of pairs.now) }
{
    let mut copied = Vec::with_capacity(alloc, pairs.len())?;
    for pair in pairs {
        let name = pair.0.as_slice().to_vec(alloc)?;
        let value = pair.1.as_slice().to_vec(alloc)?;
        copied.push((name, value))?;
    }
    Ok(copied)
}
