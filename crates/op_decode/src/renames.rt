//! The row of a rename.

ghost use Rattle.std.specs.Prelude.{◌≡◌, position, take, IfOk};
ghost use Rattle.std.specs.List.{list_any};
ghost use Rattle.head_text.specs.Headers.{header_of};
ghost use Rattle.op_decode.specs.Orders.{Answers};
ghost use Rattle.op_decode.specs.Renames.{are_together, begins_with, has_source_condition, no_source_condition};
ghost use Rattle.op_decode.specs.Renames.{not_below, posix_mode, rename_of, source_in, source_named, with_slash};
ghost use Rattle.path_text.specs.Targets.{is_question_mark, path_piece};

use super::headers::{header, is_other_text};
use super::stop::Stop;
use super::values::props_in;
use head_text::is_same_name;
use http_front::Raw;
use namespace_model::{Code, Op};
use path_text::{Path, Query, TargetStop, read_target};
use std::alloc::{AllocError, Global};

/// Path Create with a rename source, in this order: a `mode` other than `posix` is `InvalidQueryParameterValue`;
/// without `x-ms-rename-source` it is `MissingRequiredHeader`, and a source that is no target, or not below the root
/// of the destination's filesystem, is `InvalidSourceUri`; a header whose name begins with `x-ms-source-if-` is
/// `UnsupportedHeader`; a destination that is the source or below it is `InvalidRenameSourcePath`; then the
/// properties. The one error beside these is want of memory.
#[tactic(auto, unfolding(crate::specs::Renames::rename_of))]
pub fn rename_row(alloc: Global, path: Path, query: &Query, raw: &Raw) -> Result<Op, Stop>
    ensures { Answers result (rename_of path query.now raw.now) }
{
    posix_mode(query)?;
    let source = source_in(alloc, &path, raw)?;
    no_source_condition(raw)?;
    not_below(&source, &path)?;
    let props = props_in(alloc, raw)?;
    Ok(Op::Rename {
        path,
        source,
        props,
    })
}

#[tactic(auto, unfolding(crate::specs::Renames::posix_mode))]
fn posix_mode(query: &Query) -> Result<(), Code>
    ensures { result ≡ posix_mode query.now }
{
    if is_other_text(query.first(b"mode"), b"posix") {
        Err(Code::InvalidQueryParameterValue)
    } else {
        Ok(())
    }
}

#[tactic(auto, unfolding(crate::specs::Renames::source_in))]
fn source_in(alloc: Global, path: &Path, raw: &Raw) -> Result<Path, Stop>
    ensures { Answers result (source_in path.now raw.now) }
{
    match header(raw, b"x-ms-rename-source") {
        Some(text) => source_named(alloc, path, text),
        None => Err(Stop::Refused(Code::MissingRequiredHeader)),
    }
}

#[tactic(auto, unfolding(crate::specs::Renames::source_named))]
fn source_named(alloc: Global, path: &Path, text: &[u8]) -> Result<Path, Stop>
    ensures { Answers result (source_named path.now text.now) }
{
    let target = with_slash(alloc, path_piece(text))?;
    match read_target(alloc, target.as_slice()) {
        Ok(read) => {
            let (source, _) = read;
            if 2 <= source.depth() && are_together(&source, path) {
                Ok(source)
            } else {
                Err(Stop::Refused(Code::InvalidSourceUri))
            }
        }
        Err(TargetStop::NoMemory) => Err(Stop::NoMemory),
        Err(TargetStop::Fault(_) | TargetStop::BadQuery) => {
            Err(Stop::Refused(Code::InvalidSourceUri))
        }
    }
}

// The text up to its first `?`.
fn path_piece(text: &[u8]) -> &[u8]
    ensures { result.now ≡ path_piece text.now }
{
    match question_mark(text) {
        Some(at) => &text[..at],
        None => text,
    }
}

// The place of the first `?`.
fn question_mark(text: &[u8]) -> Option<usize>
    ensures { result ≡ position is_question_mark text.now }
{
    text.iter().position(|byte| *byte == b'?')
}

fn with_slash(alloc: Global, text: &[u8]) -> Result<Vec<u8>, AllocError>
    ensures { IfOk result (λ target. target.items ≡ with_slash text.now) }
{
    let mut target = Vec::new(alloc);
    if text.is_empty() || text[0] != b'/' {
        target.push(b'/')?;
    }
    target.extend_from_slice(text)?;
    Ok(target)
}

fn are_together(path: &Path, other: &Path) -> bool
    ensures { result ≡ are_together path.now other.now }
{
    match (path.fs(), other.fs()) {
        (Some(fs), Some(own)) => fs == own,
        (None, _) | (_, None) => false,
    }
}

#[tactic(auto, unfolding(crate::specs::Renames::no_source_condition))]
fn no_source_condition(raw: &Raw) -> Result<(), Code>
    ensures { result ≡ no_source_condition raw.now }
{
    if has_source_condition(raw) {
        Err(Code::UnsupportedHeader)
    } else {
        Ok(())
    }
}

#[tactic(auto, unfolding(crate::specs::Renames::has_source_condition))]
fn has_source_condition(raw: &Raw) -> bool
    ensures { result ≡ has_source_condition raw.now }
{
    any_begins_with(raw.headers.pairs(), b"x-ms-source-if-")
}

fn any_begins_with(headers: &[(Vec<u8>, Vec<u8>)], text: &[u8]) -> bool
    ensures { result ≡ list_any (λ header. begins_with text.now (header_of header)) headers.now }
{
    headers.iter().any(|header| is_same_name(front(header.0.as_slice(), text.len()), text))
}

// The first bytes, or all where there are not so many.
fn front(text: &[u8], most: usize) -> &[u8]
    ensures { result.now ≡ take most text.now }
{
    if most <= text.len() {
        &text[..most]
    } else {
        text
    }
}

fn not_below(source: &Path, path: &Path) -> Result<(), Code>
    ensures { result ≡ not_below source.now path.now }
{
    if source.is_prefix_of(path) {
        Err(Code::InvalidRenameSourcePath)
    } else {
        Ok(())
    }
}
