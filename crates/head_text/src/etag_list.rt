use std::alloc::{AllocError, Global};
use std::marker::Model;

/// The entity tags of a condition (RFC 9110, sections 13.1.1 and 13.1.2): whether any tag will do, and the numbers of the tags that are
/// listed. A contract sees the flag `any` and the list `numbers`.
#[derive(Debug, Drop)]
pub struct ETagList {
    any: bool,
    numbers: Vec<u64>,
}

impl Model for ETagList {
    ghost use Rattle.head_text.specs.Tags.{Tags};

    ghost Value = { Tags };

    ghost view = { λ t. record { any = t.any; numbers = t.numbers.items } };
}

impl ETagList {
    ghost use Rattle.std.specs.Prelude.{◌≡◌, IfOk};
    ghost use Rattle.head_text.specs.Tags.{is_listed};

    /// Keeps the flag and the numbers that it is given.
    pub fn new(any: bool, numbers: Vec<u64>) -> ETagList
        ensures any { result.any ≡ any }
        ensures numbers { result.numbers ≡ numbers.items }
    {
        ETagList { any, numbers }
    }

    /// Whether any tag will do.
    pub fn any(&self) -> bool
        ensures { result ≡ self.now.any }
    {
        self.any
    }

    /// The numbers that are listed.
    pub fn numbers(&self) -> &[u64]
        ensures { result.now ≡ self.now.numbers }
    {
        self.numbers.as_slice()
    }

    /// Whether any tag will do or this number is listed.
    pub fn matches(&self, number: u64) -> bool
        ensures { result ≡ is_listed self.now number }
    {
        self.any || self.numbers.as_slice().contains(&number)
    }

    /// Another list with the same tags. The one error is want of memory.
    pub fn copy(&self, alloc: Global) -> Result<ETagList, AllocError>
        ensures { IfOk result (λ tags. tags ≡ self.now) }
    {
        Ok(ETagList {
            any: self.any,
            numbers: self.numbers.as_slice().to_vec(alloc)?,
        })
    }
}
