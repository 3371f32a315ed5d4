//! Conditions of a request on its node (RFC 9110, section 13.1).

ghost use Rattle.std.specs.Prelude.{◌≡◌, IfOk};
ghost use Rattle.op_decode.specs.ConditionHeaders.{conditions_in, date_in, tags_in};

use super::headers::header;
use head_text::{Conditions, ETagList, read_date, read_etags};
use http_front::Raw;
use std::alloc::{AllocError, Global};

#[tactic(auto, unfolding(crate::specs::ConditionHeaders::tags_in))]
fn tags_in(alloc: Global, name: &[u8], raw: &Raw) -> Result<Option<ETagList>, AllocError>
    ensures { IfOk result (λ tags. tags ≡ tags_in name.now raw.now) }
{
    match header(raw, name) {
        Some(text) => Ok(Some(read_etags(alloc, text)?)),
        None => Ok(None),
    }
}

#[tactic(auto, unfolding(crate::specs::ConditionHeaders::date_in))]
fn date_in(name: &[u8], raw: &Raw) -> Option<u64>
    ensures { result ≡ date_in name.now raw.now }
{
    match header(raw, name) {
        Some(text) => read_date(text),
        None => None,
    }
}

/// The conditions that are given. A text that is no date is as if it were absent. The one error is want of memory.
#[tactic(auto, unfolding(crate::specs::ConditionHeaders::conditions_in))]
pub fn conditions_in(alloc: Global, raw: &Raw) -> Result<Conditions, AllocError>
    ensures { IfOk result (λ conditions. conditions ≡ conditions_in raw.now) }
{
    Ok(Conditions {
        matches: tags_in(alloc, b"if-match", raw)?,
        none: tags_in(alloc, b"if-none-match", raw)?,
        modified: date_in(b"if-modified-since", raw),
        unmodified: date_in(b"if-unmodified-since", raw),
    })
}
