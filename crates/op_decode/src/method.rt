ghost use Rattle.std.specs.Prelude.{◌≡◌};

use super::headers::{header, is_text};
use http_front::Raw;

/// The method of a request (RFC 9110, section 9); every name that no operation has is `Other`.
#[derive(Clone, Copy)]
pub enum Method {
    Get,
    Head,
    Put,
    Patch,
    Post,
    Delete,
    Other,
}

impl Method {
    ghost use Rattle.op_decode.specs.Methods.{may_be_overridden, method_named, method_of};

    /// The method that counts: a PUT or POST with `X-HTTP-Method-Override: PATCH` is a PATCH.
    #[tactic(auto, unfolding(crate::specs::Methods::method_of))]
    pub fn of(raw: &Raw) -> Method
        ensures { result ≡ method_of raw.now }
    {
        let sent = Method::named(raw.method.bytes());
        if sent.may_be_overridden() && is_text(header(raw, b"x-http-method-override"), b"PATCH") {
            Method::Patch
        } else {
            sent
        }
    }

    #[tactic(auto, unfolding(crate::specs::Methods::method_named))]
    fn named(text: &[u8]) -> Method
        ensures { result ≡ method_named text.now }
    {
        if text == b"GET".as_slice() {
            Method::Get
        } else if text == b"HEAD".as_slice() {
            Method::Head
        } else if text == b"PUT".as_slice() {
            Method::Put
        } else if text == b"PATCH".as_slice() {
            Method::Patch
        } else if text == b"POST".as_slice() {
            Method::Post
        } else if text == b"DELETE".as_slice() {
            Method::Delete
        } else {
            Method::Other
        }
    }

    fn may_be_overridden(self) -> bool
        ensures { result ≡ may_be_overridden self }
    {
        match self {
            Method::Put | Method::Post => true,
            Method::Get | Method::Head | Method::Patch | Method::Delete | Method::Other => false,
        }
    }
}
