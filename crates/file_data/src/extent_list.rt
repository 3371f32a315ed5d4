ghost use Rattle.std.specs.Prelude.{◌≡◌, ◌++◌, ◌≤◌, [], length, take, vec_len, IfOk, OnOk, IsTrue};
ghost use Rattle.std.specs.Arc.{arc_value};
ghost use Rattle.file_data.specs.ExtentLists.{whole};

use super::shared_piece::SharedPiece;
use std::alloc::{AllocError, Global};
use std::marker::Model;
use std::sync::Arc;

// A piece and where it starts in the file.
type Extent = (u64, SharedPiece);

// The extents of a file. They are the first ones of a list that several files may have together, so that a copy takes the
// same time however many there are. Behind them stand pieces that may become extents next.
#[derive(Drop)]
pub(crate) struct ExtentList {
    list: Option<Arc<Vec<(u64, SharedPiece)>>>,
    count: usize,
}

impl Model for ExtentList {
    ghost use Rattle.file_data.specs.ExtentLists.{Extents, parted, IsLong};

    ghost Value = { Extents };

    ghost view = { parted };

    ghost invariant = { IsLong };
}

impl ExtentList {
    // No extents. It takes no memory.
    pub(crate) fn new() -> ExtentList
        ensures extents { result.extents ≡ [] }
        ensures ahead { result.ahead ≡ [] }
    {
        ExtentList {
            list: None,
            count: 0,
        }
    }

    // The extents.
    pub(crate) fn extents(&self) -> &[(u64, SharedPiece)]
        ensures { result.now ≡ self.now.extents }
    {
        match &self.list {
            Some(shared) => &shared.as_slice()[..self.count],
            None => &[],
        }
    }

    // Puts these pieces behind the extents, in the place of what stands there. A list that has one owner is changed in
    // place; of another one a new list is made. The one error is want of memory, or that no more owners of a piece can
    // be counted.
    pub(crate) fn prepare(
        &mut self,
        alloc: Global,
        pieces: &[(u64, SharedPiece)],
    ) -> Result<(), AllocError>
        ensures extents { self.new.extents ≡ self.old.extents }
        ensures ahead { OnOk result (self.new.ahead ≡ pieces.now) }
    {
        if let Some(shared) = &mut self.list {
            if put_in_place(shared, self.count, pieces)? {
                return Ok(());
            }
        }
        let list = joined(alloc, self.extents(), pieces)?;
        self.list = Some(Arc::new(alloc, list)?);
        Ok(())
    }

    // Takes the first pieces that stand behind the extents as extents. The rest is dropped where the list has one owner.
    pub(crate) fn take_up(&mut self, count: usize)
        requires { count ≤ length self.old.ahead }
        ensures { self.new.extents ≡ self.old.extents ++ take count self.old.ahead }
    {
        self.count += count;
        cut(&mut self.list, self.count);
    }

    // One owner more of the same list. The one error is that no more owners can be counted.
    pub(crate) fn copy(&self) -> Result<ExtentList, AllocError>
        ensures { IfOk result (λ copied. copied ≡ self.now) }
    {
        let list = match &self.list {
            Some(shared) => Some(Arc::try_clone(shared)?),
            None => None,
        };
        Ok(ExtentList {
            list,
            count: self.count,
        })
    }
}

// Puts pieces behind the first ones of a list, in the place of what stands there, where the list has one owner; the answer
// is whether it has. The first ones stay, also where memory is wanting.
fn put_in_place(
    shared: &mut Arc<Vec<(u64, SharedPiece)>>,
    count: usize,
    pieces: &[(u64, SharedPiece)],
) -> Result<bool, AllocError>
    requires { count ≤ length (arc_value shared.old).items }
    ensures within { count ≤ length (arc_value shared.new).items }
    ensures kept { take count (arc_value shared.new).items ≡ take count (arc_value shared.old).items }
    ensures put { IfOk result (λ alone. IsTrue alone →
        (arc_value shared.new).items ≡ take count (arc_value shared.old).items ++ pieces.now) }
{
    match Arc::get_mut(shared) {
        Some(list) => {
            list.truncate(count);
            put_copies(pieces, list)?;
            Ok(true)
        }
        None => Ok(false),
    }
}

// Drops what stands behind the first ones of a list, where it has one owner.
fn cut(list: &mut Option<Arc<Vec<(u64, SharedPiece)>>>, count: usize)
    requires { count ≤ length (whole list.old) }
    ensures within { count ≤ length (whole list.new) }
    ensures kept { take count (whole list.new) ≡ take count (whole list.old) }
{
    if let Some(shared) = list {
        if let Some(pieces) = Arc::get_mut(shared) {
            pieces.truncate(count);
        }
    }
}

// A list of extents and then pieces, all of them shared. The one error is want of memory, or that no more owners of a
// piece can be counted.
fn joined(
    alloc: Global,
    extents: &[(u64, SharedPiece)],
    pieces: &[(u64, SharedPiece)],
) -> Result<Vec<(u64, SharedPiece)>, AllocError>
    ensures { IfOk result (λ list. list.items ≡ extents.now ++ pieces.now) }
{
    let mut list = Vec::with_capacity(alloc, extents.len().saturating_add(pieces.len()))?;
    put_copies(extents, &mut list)?;
    put_copies(pieces, &mut list)?;
    Ok(list)
}

// Puts pieces behind those of a list, where they are shared. What the list has stays, also where memory is wanting.
fn put_copies(
    pieces: &[(u64, SharedPiece)],
    list: &mut Vec<(u64, SharedPiece)>,
) -> Result<(), AllocError>
    ensures within { vec_len list.old ≤ vec_len list.new }
    ensures kept { take (vec_len list.old) list.new.items ≡ list.old.items }
    ensures put { OnOk result (list.new.items ≡ list.old.items ++ pieces.now) }
{
    for piece in pieces {
        list.push((piece.0, piece.1.copy()?))?;
    }
    Ok(())
}
