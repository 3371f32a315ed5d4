ghost use Rattle.std.specs.Prelude.{◌≡◌, IfOk};

use super::children::Children;
use super::meta::Meta;
use file_data::FileData;
use std::alloc::{AllocError, Global};

/// What a node holds of its own.
#[derive(Drop)]
pub enum Content {
    /// The children of a directory.
    Directory(Children),
    /// The bytes of a file, with what is staged.
    File(FileData),
}

impl Content {
    /// Another value that is equal. The one error is want of memory.
    pub fn copy(&self, alloc: Global) -> Result<Content, AllocError>
        ensures { IfOk result (λ content. content ≡ self.now) }
    {
        match self {
            Content::Directory(children) => Ok(Content::Directory(children.copy(alloc)?)),
            Content::File(data) => Ok(Content::File(data.copy(alloc)?)),
        }
    }
}

/// A node as a stripe keeps it.
#[derive(Drop)]
pub struct Inode {
    pub meta: Meta,
    pub content: Content,
}

impl Inode {
    /// Another node that is equal. The one error is want of memory.
    pub fn copy(&self, alloc: Global) -> Result<Inode, AllocError>
        ensures { IfOk result (λ inode. inode ≡ self.now) }
    {
        Ok(Inode {
            meta: self.meta.copy(alloc)?,
            content: self.content.copy(alloc)?,
        })
    }
}
