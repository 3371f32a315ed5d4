ghost use Rattle.std.specs.Prelude.{◌≡◌};
ghost use Rattle.path_text.specs.Parts.{parts_left, with_first};

use super::name::{FsName, Name};

/// The parts of a path that are still to come, from the left, as names. It takes no memory.
#[derive(Drop)]
pub struct Parts<'a> {
    fs: Option<&'a FsName>,
    names: &'a [Name],
}

impl<'a> Parts<'a> {
    pub(crate) fn new(fs: Option<&'a FsName>, names: &'a [Name]) -> Parts<'a>
        ensures { parts_left result ≡ with_first fs.entry names.now }
    {
        Parts { fs, names }
    }
}

impl<'a> Iterator for Parts<'a> {
    type Item = &'a Name;

    ghost use Rattle.std.specs.Iterator.{YieldsFirstBy, item_count};
    ghost use Rattle.path_text.specs.Parts.{parts_left};

    ghost next_gives = { YieldsFirstBy (λ part. part.now) parts_left };

    ghost remaining = { item_count parts_left };

    fn next(&mut self) -> Option<&'a Name> {
        if let Some(fs) = self.fs.take() {
            return Some(fs.name());
        }
        let (first, others) = self.names.split_first()?;
        self.names = others;
        Some(first)
    }
}
