//! How much room a path leaves for what is below it.
ghost use Rattle.std.specs.Prelude.{◌≡◌, ◌≢◌, ◌+◌, ◌<◌, [], None, IfSome};
ghost use Rattle.dir_rename.specs.Lengths.{name_bytes, IsRoom, IsOverlong, IsGrowth};
ghost use Rattle.path_text.specs.Texts.{KeepsLimits};

use path_text::{DEPTH_MOST, Name, PATH_MOST, Path};

// How much may stand below a path.
#[derive(Clone, Copy)]
pub(crate) struct Room {
    // How many names.
    pub(crate) names: usize,
    // How many bytes, with a `/` before each name.
    pub(crate) bytes: usize,
}

// What these names leave of so many bytes: none where they have more.
fn left_behind(names: &[Name], bytes: usize) -> Option<usize>
    ensures some { IfSome result (λ left. left + name_bytes names.now ≡ bytes) }
    ensures none { result ≡ None → bytes < name_bytes names.now }
{
    let mut left = bytes;
    for name in names {
        let len = name.bytes().len();
        if len >= left {
            return None;
        }
        left -= len + 1;
    }
    Some(left)
}

// The room that a path leaves.
pub(crate) fn room_below(path: &Path) -> Room
    requires below { path.now ≢ [] }
    requires limits { KeepsLimits path.now }
    ensures { IsRoom path.now result }
{
    let fs = match path.fs() {
        Some(fs) => fs.bytes().len(),
        None => unreachable!(),
    };
    match left_behind(path.names(), PATH_MOST - fs) {
        Some(bytes) => Room {
            names: DEPTH_MOST - path.depth(),
            bytes,
        },
        None => unreachable!(),
    }
}

// Whether what stands below under these names has no room.
pub(crate) fn is_overlong(room: Room, names: &[Name]) -> bool
    ensures { IsOverlong room names.now result }
{
    if names.len() > room.names {
        return true;
    }
    match left_behind(names, room.bytes) {
        Some(_) => false,
        None => true,
    }
}

// Whether there is less room below the destination than below the source.
pub(crate) fn is_growth(source: Room, path: Room) -> bool
    ensures { IsGrowth source path result }
{
    path.names < source.names || path.bytes < source.bytes
}
