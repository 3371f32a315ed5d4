//! Path Read, and the two forms of Path Update that change the bytes of a file: append and flush.

ghost use Rattle.std.specs.Prelude.{◌≡◌};
ghost use Rattle.op_decode.specs.Data.{append_of, flush_of, range_in, read_of, retain_in, with_body, without_body};

use super::headers::header;
use super::leases::{append_action_in, where_flushed};
use super::parameters::{flag_in, position_in};
use head_text::{Range, read_range};
use http_front::Raw;
use namespace_model::{Code, Op};
use path_text::{Path, Query};

#[tactic(auto, unfolding(crate::specs::Data::range_in))]
fn range_in(raw: &Raw) -> Option<Range>
    ensures { result ≡ range_in raw.now }
{
    match header(raw, b"range") {
        Some(text) => read_range(text),
        None => None,
    }
}

/// Path Read: the range of `Range`. One of another form is as if it were absent.
#[tactic(auto, unfolding(crate::specs::Data::read_of))]
pub fn read_row(path: Path, raw: &Raw) -> Result<Op, Code>
    ensures { result ≡ read_of path raw.now }
{
    Ok(Op::Read {
        path,
        range: range_in(raw),
    })
}

#[tactic(auto, unfolding(crate::specs::Data::with_body))]
fn with_body(raw: &Raw) -> Result<(), Code>
    ensures { result ≡ with_body raw.now }
{
    if raw.body.bytes().is_empty() {
        Err(Code::InvalidInput)
    } else {
        Ok(())
    }
}

#[tactic(auto, unfolding(crate::specs::Data::without_body))]
fn without_body(raw: &Raw) -> Result<(), Code>
    ensures { result ≡ without_body raw.now }
{
    if raw.body.bytes().is_empty() {
        Ok(())
    } else {
        Err(Code::InvalidInput)
    }
}

#[tactic(auto, unfolding(crate::specs::Data::retain_in))]
fn retain_in(query: &Query) -> Result<bool, Code>
    ensures { result ≡ retain_in query.now }
{
    flag_in(b"retainUncommittedData", query)
}

/// Path Update with `append`: `position`, `flush` and `retainUncommittedData`; then without a body it is
/// `InvalidInput`; then the lease action, and one that releases without `flush` is `InvalidInput`.
#[tactic(auto, unfolding(crate::specs::Data::append_of))]
pub fn append_row(path: Path, query: &Query, raw: &Raw) -> Result<Op, Code>
    ensures { result ≡ append_of path query.now raw.now }
{
    let position = position_in(query)?;
    let flush = flag_in(b"flush", query)?;
    let retain = retain_in(query)?;
    with_body(raw)?;
    let action = where_flushed(flush, append_action_in(raw)?)?;
    Ok(Op::Append {
        path,
        position,
        flush,
        retain,
        action,
    })
}

/// Path Update with `flush`: `position` and `retainUncommittedData`; then with a body it is `InvalidInput`.
#[tactic(auto, unfolding(crate::specs::Data::flush_of))]
pub fn flush_row(path: Path, query: &Query, raw: &Raw) -> Result<Op, Code>
    ensures { result ≡ flush_of path query.now raw.now }
{
    let position = position_in(query)?;
    let retain = retain_in(query)?;
    without_body(raw)?;
    Ok(Op::Flush {
        path,
        position,
        retain,
    })
}
