ghost use Rattle.std.specs.Prelude.{◌≡◌, IfOk};

use file_data::{Piece, SharedPiece};
use std::alloc::{AllocError, Global};
use std::marker::Model;

/// Shares bodies of requests. All requests without a body have one empty one together, which is made for the first of them. A contract
/// sees nothing of it.
#[derive(Drop)]
pub struct SharedBodies {
    empty: Option<SharedPiece>,
}

impl Model for SharedBodies {
    ghost use Rattle.std.specs.Prelude.{ℕ, ◌≡◌, List, [], Some};

    ghost Value = { Unit {0} };

    ghost view = { λ _. tt };

    ghost invariant = { λ b. (p : List ℕ) → b.empty ≡ Some p → p ≡ [] };
}

impl SharedBodies {
    ghost use Rattle.std.specs.Prelude.{◌≡◌, IfOk};

    /// No body is shared yet. It takes no memory.
    pub fn new() -> SharedBodies {
        SharedBodies { empty: None }
    }

    /// Shares these bytes. The one error is want of memory, or that no more owners of the empty body can be counted.
    pub fn share(&mut self, alloc: Global, body: Vec<u8>) -> Result<SharedPiece, AllocError>
        ensures { IfOk result (λ shared. shared ≡ body.items) }
    {
        if !body.is_empty() {
            return SharedPiece::new(alloc, Piece::new(body));
        }
        if let Some(empty) = &self.empty {
            return empty.copy();
        }
        let first = SharedPiece::new(alloc, Piece::new(body))?;
        self.empty = Some(first.copy()?);
        Ok(first)
    }
}
