ghost use Rattle.std.specs.Prelude.{◌≡◌, ℕ, ◌+◌, ◌-◌, ◌++◌, ◌≤◌, length, slice_range, vec_len, vec_capacity};
ghost use Rattle.file_data.specs.Staging.{bytes_of};
ghost use Rattle.file_data.specs.FileRecord.{file_max, AreExtents};
ghost use Rattle.file_data.specs.Extents.{part_of, parts_of};

use super::shared_piece::SharedPiece;
use super::walk::count_below;

// The bytes of an extent that lie from one position of the file to another.
fn part(extent: &(u64, SharedPiece), from: u64, to: u64) -> &[u8]
    requires { from ≤ to }
    ensures { result.now ≡ part_of from to extent.now }
{
    let bytes = extent.1.bytes();
    let len = bytes.len() as u64;
    let start = from.saturating_sub(extent.0).min(len) as usize;
    let end = to.saturating_sub(extent.0).min(len) as usize;
    &bytes[start..end]
}

// Appends the bytes of extents that lie from one position to another, for which there is room.
fn append_parts(extents: &[(u64, SharedPiece)], from: u64, to: u64, out: &mut Vec<u8>)
    requires ordered { from ≤ to }
    requires room { vec_len out.old + length (parts_of from to extents.now) ≤ vec_capacity out.old }
    ensures { out.new.items ≡ out.old.items ++ parts_of from to extents.now }
{
    for extent in extents {
        match out.extend_from_slice(part(extent, from, to)) {
            Ok(()) => {}
            Err(_) => unreachable!(),
        }
    }
}

// Appends the bytes from one position to another, for which there is room. The first extent that has some of them is
// found by halving, and so is the last.
pub(crate) fn append_range(extents: &[(u64, SharedPiece)], from: u64, to: u64, out: &mut Vec<u8>)
    requires lie { AreExtents (bytes_of extents.now) extents.now }
    requires ordered { from ≤ to }
    requires within { to ≤ length (bytes_of extents.now) }
    requires limit { length (bytes_of extents.now) ≤ file_max }
    requires room { vec_len out.old + (to - from) ≤ vec_capacity out.old }
    ensures appended { out.new.items ≡ out.old.items ++ slice_range (bytes_of extents.now) from to }
{
    let first = count_below(extents, from + 1).saturating_sub(1);
    let rest = &extents[first..];
    let count = count_below(rest, to);
    append_parts(&rest[..count], from, to, out)
}
