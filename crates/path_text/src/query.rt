ghost use Rattle.std.specs.Prelude.{◌≡◌, List, IfOk};
ghost use Rattle.std.specs.Option.{option_copied};
ghost use Rattle.path_text.specs.Queries.{first_value};

use std::alloc::{AllocError, Global};
use std::marker::Model;

/// A key and its value in a query, both decoded. A contract sees the pair of their bytes.
#[derive(Debug, Drop)]
pub struct Pair {
    key: Vec<u8>,
    value: Vec<u8>,
}

impl Model for Pair {
    ghost use Rattle.std.specs.Prelude.{List, ℕ};

    ghost Value = { List ℕ × List ℕ };

    ghost view = { λ p. (p.key.items, p.value.items) };
}

impl Pair {
    pub(crate) fn new(key: Vec<u8>, value: Vec<u8>) -> Pair
        ensures { result ≡ (key.items, value.items) }
    {
        Pair { key, value }
    }

    /// The bytes of the key.
    pub fn key(&self) -> &[u8]
        ensures { result.now ≡ self.now.0 }
    {
        self.key.as_slice()
    }

    /// The bytes of the value.
    pub fn value(&self) -> &[u8]
        ensures { result.now ≡ self.now.1 }
    {
        self.value.as_slice()
    }

    /// Another pair with the same bytes. The one error is want of memory.
    pub fn copy(&self, alloc: Global) -> Result<Pair, AllocError>
        ensures { IfOk result (λ pair. pair ≡ self.now) }
    {
        let key = self.key.as_slice().to_vec(alloc)?;
        let value = self.value.as_slice().to_vec(alloc)?;
        Ok(Pair { key, value })
    }
}

/// The query of a target. A contract sees the list of its pairs.
#[derive(Debug, Drop)]
pub struct Query {
    pairs: Vec<Pair>,
}

impl Model for Query {
    ghost use Rattle.std.specs.Prelude.{List, ℕ};

    ghost Value = { List (List ℕ × List ℕ) };

    ghost view = { λ q. q.pairs.items };
}

impl Query {
    pub(crate) fn new(pairs: Vec<Pair>) -> Query
        ensures { result ≡ pairs.items }
    {
        Query { pairs }
    }

    /// The pairs, in the order of the text.
    pub fn pairs(&self) -> &[Pair]
        ensures { result.now ≡ self.now }
    {
        self.pairs.as_slice()
    }

    /// The value of the first pair with this key: `None` exactly where no pair has it.
    pub fn first(&self, key: &[u8]) -> Option<&[u8]>
        ensures { option_copied result ≡ first_value self.now key.now }
    {
        first_of(self.pairs.as_slice(), key)
    }

    /// Another query with the same pairs. The one error is want of memory.
    pub fn copy(&self, alloc: Global) -> Result<Query, AllocError>
        ensures { IfOk result (λ query. query ≡ self.now) }
    {
        Ok(Query {
            pairs: copy_pairs(alloc, self.pairs.as_slice())?,
        })
    }
}

fn first_of<'a>(pairs: &'a [Pair], key: &[u8]) -> Option<&'a [u8]>
    ensures { option_copied result ≡ first_value pairs.now key.now }
{
    for pair in pairs {
        if pair.key() == key {
            return Some(pair.value());
        }
    }
    None
}

fn copy_pairs(alloc: Global, pairs: &[Pair]) -> Result<Vec<Pair>, AllocError>
    ensures { IfOk result (λ copied. copied.items ≡ pairs.now) }
{
    let mut copied = Vec::with_capacity(alloc, pairs.len())?;
    for pair in pairs {
        copied.push(pair.copy(alloc)?)?;
    }
    Ok(copied)
}
