ghost use Rattle.std.specs.Prelude.{◌≡◌, IfOk};
ghost use Rattle.http_front.specs.Finds.{raw_from};

use file_data::{Piece, SharedPiece};
use head_text::HeaderList;
use std::alloc::{AllocError, Global};

/// The parts of a request as they stand in its bytes (RFC 9112, sections 3, 5 and 6).
#[derive(Drop)]
pub struct Raw {
    /// The method, as `PUT`.
    pub method: Piece,
    /// The request target, as `/data?resource=filesystem`.
    pub target: Piece,
    /// The minor version: 1 for HTTP/1.1, 0 for HTTP/1.0.
    pub minor: u8,
    /// The headers in their order, each value without the white space around it.
    pub headers: HeaderList,
    /// The bytes of the body.
    pub body: SharedPiece,
}

impl Raw {
    /// Another value with the same parts; the body is shared. The one error is want of memory.
    pub fn copy(&self, alloc: Global) -> Result<Raw, AllocError>
        ensures { IfOk result (λ raw. raw ≡ self.now) }
    {
        Ok(Raw {
            method: self.method.copy(alloc)?,
            target: self.target.copy(alloc)?,
            minor: self.minor,
            headers: self.headers.copy(alloc)?,
            body: self.body.copy()?,
        })
    }
}

/// The parts of a head.
#[derive(Drop)]
pub struct Parts {
    /// The method.
    pub method: Piece,
    /// The request target.
    pub target: Piece,
    /// The minor version.
    pub minor: u8,
    /// The headers in their order.
    pub headers: HeaderList,
}

impl Parts {
    /// The request of this head and this body.
    pub fn with_body(self, body: SharedPiece) -> Raw
        ensures { result ≡ raw_from self body }
    {
        let Parts {
            method,
            target,
            minor,
            headers,
        } = self;
        Raw {
            method,
            target,
            minor,
            headers,
            body,
        }
    }
}
