ghost use Rattle.std.specs.Prelude.{◌≡◌, ◌++◌, IfOk, OnOk};
ghost use Rattle.percent_encoding.specs.Percent.{percent_decode};
ghost use Rattle.std.specs.String.{string_bytes};
ghost use Rattle.path_text.specs.Targets.{bad_escape, begins_badly, escaped};

use percent_encoding::{AsciiSet, NON_ALPHANUMERIC, percent_decode, percent_encode};
use std::alloc::{AllocError, Global};

// The bytes that are escaped in a part: all but letters, digits, `-`, `.`, `_` and `~`, the unreserved characters of RFC 3986.
const ESCAPED: AsciiSet = AsciiSet {
    mask: NON_ALPHANUMERIC.mask & !(1 << b'-') & !(1 << b'.') & !(1 << b'_') & !(1 << b'~'),
};

// The place of the first `%` that two hex digits don't follow.
pub(crate) fn bad_escape(text: &[u8]) -> Option<usize>
    ensures { result ≡ bad_escape text.now }
{
    for at in 0..text.len() {
        if begins_badly(&text[at..]) {
            return Some(at);
        }
    }
    None
}

fn begins_badly(text: &[u8]) -> bool
    ensures { result ≡ begins_badly text.now }
{
    if text.is_empty() || text[0] != b'%' {
        return false;
    }
    text.len() < 3 || !text[1].is_ascii_hexdigit() || !text[2].is_ascii_hexdigit()
}

// The text with each escape replaced by its byte.
pub(crate) fn decoded(alloc: Global, text: &[u8]) -> Result<Vec<u8>, AllocError>
    ensures { IfOk result (λ bytes. bytes.items ≡ percent_decode text.now) }
{
    let mut bytes = Vec::new(alloc);
    percent_decode(text).append_to(&mut bytes)?;
    Ok(bytes)
}

// Appends a part with its escapes.
pub(crate) fn push_escaped(text: &mut String, part: &[u8]) -> Result<(), AllocError>
    ensures { OnOk result (string_bytes text.new ≡ string_bytes text.old ++ escaped part.now) }
{
    percent_encode(part, ESCAPED).append_to(text)
}
