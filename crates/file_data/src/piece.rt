ghost use Rattle.std.specs.Prelude.{◌≡◌, IfOk};

use std::alloc::{AllocError, Global};
use std::marker::Model;

/// A run of bytes. A contract sees the list of its bytes.
#[derive(Debug, Drop)]
pub struct Piece {
    bytes: Vec<u8>,
}

impl Model for Piece {
    ghost use Rattle.std.specs.Prelude.{List, ℕ};

    ghost Value = { List ℕ };

    ghost view = { λ p. p.bytes.items };
}

impl Piece {
    /// Keeps the bytes that it is given.
    pub fn new(bytes: Vec<u8>) -> Piece
        ensures { result ≡ bytes.items }
    {
        Piece { bytes }
    }

    /// The bytes.
    pub fn bytes(&self) -> &[u8]
        ensures { result.now ≡ self.now }
    {
        self.bytes.as_slice()
    }

    /// Another piece with the same bytes. The one error is want of memory.
    pub fn copy(&self, alloc: Global) -> Result<Piece, AllocError>
        ensures { IfOk result (λ piece. piece ≡ self.now) }
    {
        Ok(Piece {
            bytes: self.bytes.as_slice().to_vec(alloc)?,
        })
    }
}
