ghost use Rattle.std.specs.Prelude.{◌≡◌, IfOk};

use super::etag_list::ETagList;
use std::alloc::{AllocError, Global};
use thiserror::Error;

/// What a request asks of a node before it does its work (RFC 9110, section 13). Dates are whole seconds since 1970.
#[derive(Debug, Drop)]
pub struct Conditions {
    /// If-Match.
    pub matches: Option<ETagList>,
    /// If-None-Match.
    pub none: Option<ETagList>,
    /// If-Modified-Since.
    pub modified: Option<u64>,
    /// If-Unmodified-Since.
    pub unmodified: Option<u64>,
}

impl Conditions {
    /// Equal conditions. The one error is want of memory.
    pub fn copy(&self, alloc: Global) -> Result<Conditions, AllocError>
        ensures { IfOk result (λ conditions. conditions ≡ self.now) }
    {
        Ok(Conditions {
            matches: copy_tags(alloc, &self.matches)?,
            none: copy_tags(alloc, &self.none)?,
            modified: self.modified,
            unmodified: self.unmodified,
        })
    }
}

fn copy_tags(alloc: Global, tags: &Option<ETagList>) -> Result<Option<ETagList>, AllocError>
    ensures { IfOk result (λ copied. copied ≡ tags.now) }
{
    match tags {
        Some(tags) => Ok(Some(tags.copy(alloc)?)),
        None => Ok(None),
    }
}

/// The condition that fails.
#[derive(Clone, Copy, Debug, PartialEq, Eq, Error)]
pub enum Unmet {
    /// The node is not there, or its tag is not listed.
    #[error("If-Match fails.")]
    Match,
    /// The node changed after the date.
    #[error("If-Unmodified-Since fails.")]
    Unmodified,
    /// The node is there, and its tag is listed.
    #[error("If-None-Match fails.")]
    NoneMatch,
    /// The node did not change after the date.
    #[error("If-Modified-Since fails.")]
    Modified,
}
