//! The rows of the operations that give pages of names. The one error beside those that are named is want of memory.

ghost use Rattle.std.specs.Prelude.{◌≡◌, IfOk};
ghost use Rattle.std.specs.Option.{option_copied};
ghost use Rattle.op_decode.specs.Listings.{behind, directory_named, directory_of, list_filesystems_of, list_of};
ghost use Rattle.op_decode.specs.Listings.{prefix_of, without_front, without_slashes};
ghost use Rattle.op_decode.specs.Orders.{Answers};
ghost use Rattle.path_text.specs.Texts.{without_end};

use super::parameters::{flag_in, size_in, token_in};
use super::stop::Stop;
use file_data::Piece;
use namespace_model::{Code, Op};
use path_text::{Path, Query, TargetStop, read_plain};
use std::alloc::{AllocError, Global};

/// The greatest number of names on a page.
const PAGE_MOST: u32 = 5000;

/// Filesystem List: `prefix`, `continuation`, `maxResults`.
#[tactic(auto, unfolding(crate::specs::Listings::list_filesystems_of))]
pub fn list_filesystems_row(alloc: Global, query: &Query) -> Result<Op, Stop>
    ensures { Answers result (list_filesystems_of query.now) }
{
    let token = token_in(alloc, None, query)?;
    let max = size_in(b"maxResults", PAGE_MOST, query)?;
    let prefix = prefix_of(alloc, query.first(b"prefix"))?;
    Ok(Op::ListFilesystems { prefix, token, max })
}

fn prefix_of(alloc: Global, text: Option<&[u8]>) -> Result<Piece, AllocError>
    ensures { IfOk result (λ prefix. prefix ≡ prefix_of (option_copied text.entry)) }
{
    match text {
        Some(text) => Ok(Piece::new(text.to_vec(alloc)?)),
        None => Ok(Piece::new(Vec::new(alloc))),
    }
}

/// Path List: `directory`, `recursive`, `continuation`, `maxResults`.
#[tactic(auto, unfolding(crate::specs::Listings::list_of))]
pub fn list_row(alloc: Global, root: Path, query: &Query) -> Result<Op, Stop>
    ensures { Answers result (list_of root query.now) }
{
    let dir = directory_of(alloc, root, query.first(b"directory"))?;
    let recursive = flag_in(b"recursive", query)?;
    let token = token_in(alloc, dir.fs(), query)?;
    let max = size_in(b"maxResults", PAGE_MOST, query)?;
    Ok(Op::List {
        dir,
        recursive,
        token,
        max,
    })
}

// The directory of a listing: a path behind the filesystem, and its root where no name is given.
#[tactic(auto, unfolding(crate::specs::Listings::directory_of))]
fn directory_of(alloc: Global, root: Path, text: Option<&[u8]>) -> Result<Path, Stop>
    ensures { Answers result (directory_of root (option_copied text.entry)) }
{
    match text {
        Some(text) => directory_named(alloc, root, without_slashes(text)),
        None => Ok(root),
    }
}

#[tactic(auto, unfolding(crate::specs::Listings::directory_named))]
fn directory_named(alloc: Global, root: Path, name: &[u8]) -> Result<Path, Stop>
    ensures { Answers result (directory_named root name.now) }
{
    if name.is_empty() {
        return Ok(root);
    }
    let text = behind(alloc, &root, name)?;
    match read_plain(alloc, text.as_slice()) {
        Ok(dir) => Ok(dir),
        Err(TargetStop::NoMemory) => Err(Stop::NoMemory),
        Err(TargetStop::Fault(_) | TargetStop::BadQuery) => {
            Err(Stop::Refused(Code::InvalidQueryParameterValue))
        }
    }
}

// The text of a name behind the filesystem of a path.
fn behind(alloc: Global, path: &Path, name: &[u8]) -> Result<Vec<u8>, AllocError>
    ensures { IfOk result (λ text. text.items ≡ behind path.now name.now) }
{
    let mut text = Vec::new(alloc);
    if let Some(fs) = path.fs() {
        text.push(b'/')?;
        text.extend_from_slice(fs.bytes())?;
    }
    text.push(b'/')?;
    text.extend_from_slice(name)?;
    Ok(text)
}

// The text without one `/` at its front and one at its end.
#[tactic(auto, unfolding(crate::specs::Listings::without_slashes))]
fn without_slashes(text: &[u8]) -> &[u8]
    ensures { result.now ≡ without_slashes text.now }
{
    without_end(without_front(text))
}

fn without_front(text: &[u8]) -> &[u8]
    ensures { result.now ≡ without_front text.now }
{
    if text.is_empty() || text[0] != b'/' {
        return text;
    }
    &text[1..]
}

fn without_end(text: &[u8]) -> &[u8]
    ensures { result.now ≡ without_end text.now }
{
    if text.is_empty() || text[text.len() - 1] != b'/' {
        return text;
    }
    &text[..text.len() - 1]
}
