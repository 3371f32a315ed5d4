ghost use Rattle.std.specs.Prelude.{◌≡◌, IfOk};
ghost use Rattle.inode_tree.specs.Inodes.{bare_content, file};
ghost use Rattle.inode_tree.specs.Changes.{linked, unlinked, staged_in, flushed_in, is_meta_of};

use super::id::NodeId;
use super::inode::Content;
use super::meta::Meta;
use file_data::{FileData, SharedPiece};
use namespace_model::Kind;
use path_text::Name;
use std::alloc::{AllocError, Global};

// What a link makes of a content.
pub(crate) fn linked(
    alloc: Global,
    content: Content,
    name: &Name,
    child: NodeId,
) -> Result<Content, AllocError>
    ensures { IfOk result (λ after. bare_content after ≡ linked name.now child.0 (bare_content content)) }
{
    match content {
        Content::Directory(mut children) => {
            children.link(alloc, name.copy(alloc)?, child)?;
            Ok(Content::Directory(children))
        }
        Content::File(file) => Ok(Content::File(file)),
    }
}

// What an unlink makes of a content.
pub(crate) fn unlinked(alloc: Global, content: Content, name: &Name) -> Result<Content, AllocError>
    ensures { IfOk result (λ after. bare_content after ≡ unlinked name.now (bare_content content)) }
{
    match content {
        Content::Directory(mut children) => {
            children.unlink(alloc, name)?;
            Ok(Content::Directory(children))
        }
        Content::File(file) => Ok(Content::File(file)),
    }
}

// What a stage makes of a content.
pub(crate) fn staged(
    content: Content,
    position: u64,
    piece: &SharedPiece,
) -> Result<Content, AllocError>
    ensures { IfOk result (λ after. bare_content after ≡ staged_in position piece.now (bare_content content)) }
{
    match content {
        Content::Directory(children) => Ok(Content::Directory(children)),
        Content::File(file) => Ok(Content::File(staged_data(file, position, piece)?)),
    }
}

fn staged_data(
    mut before: FileData,
    position: u64,
    piece: &SharedPiece,
) -> Result<FileData, AllocError>
    ensures { IfOk result (λ after. file after.committed after.staged ≡ staged_in position piece.now (file before.committed before.staged)) }
{
    if piece.bytes().len() == 0 {
        return Ok(before);
    }
    before.reserve_stage()?;
    match before.stage(position, piece.copy()?) {
        Ok(()) => Ok(before),
        Err(_) => Ok(before),
    }
}

// What a flush makes of a content.
pub(crate) fn flushed(content: Content, position: u64, retain: bool) -> Result<Content, AllocError>
    ensures { IfOk result (λ after. bare_content after ≡ flushed_in position retain (bare_content content)) }
{
    match content {
        Content::Directory(children) => Ok(Content::Directory(children)),
        Content::File(file) => Ok(Content::File(flushed_data(file, position, retain)?)),
    }
}

fn flushed_data(mut before: FileData, position: u64, retain: bool) -> Result<FileData, AllocError>
    ensures { IfOk result (λ after. file after.committed after.staged ≡ flushed_in position retain (file before.committed before.staged)) }
{
    before.reserve_flush()?;
    match before.flush(position, retain) {
        Ok(()) => Ok(before),
        Err(_) => Ok(before),
    }
}

// Whether a meta is that of a directory where the content is, and that of a file where the content is.
pub(crate) fn is_meta_of(content: &Content, meta: &Meta) -> bool
    ensures { result ≡ is_meta_of (bare_content content.now) meta.now }
{
    match content {
        Content::Directory(_) => meta.kind == Kind::Directory,
        Content::File(_) => meta.kind == Kind::File,
    }
}
