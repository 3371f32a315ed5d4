ghost use Rattle.std.specs.Prelude.{◌≡◌, IfOk};

use super::piece::Piece;
use std::alloc::{AllocError, Global};
use std::marker::Model;
use std::sync::Arc;

/// A run of bytes that several owners have together. A contract sees the list of its bytes.
#[derive(Drop)]
pub struct SharedPiece {
    piece: Arc<Piece>,
}

impl Model for SharedPiece {
    ghost use Rattle.std.specs.Prelude.{List, ℕ};
    ghost use Rattle.std.specs.Arc.{arc_value};

    ghost Value = { List ℕ };

    ghost view = { λ s. arc_value s.piece };
}

impl SharedPiece {
    /// Shares the bytes of a piece. The one error is want of memory.
    pub fn new(alloc: Global, piece: Piece) -> Result<SharedPiece, AllocError>
        ensures { IfOk result (λ shared. shared ≡ piece) }
    {
        Ok(SharedPiece {
            piece: Arc::new(alloc, piece)?,
        })
    }

    /// The bytes.
    pub fn bytes(&self) -> &[u8]
        ensures { result.now ≡ self.now }
    {
        self.piece.bytes()
    }

    /// One owner more of the same bytes, which are not copied. The one error is that no more owners can be counted.
    pub fn copy(&self) -> Result<SharedPiece, AllocError>
        ensures { IfOk result (λ shared. shared ≡ self.now) }
    {
        Ok(SharedPiece {
            piece: Arc::try_clone(&self.piece)?,
        })
    }
}
