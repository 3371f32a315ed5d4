ghost use Rattle.std.specs.Prelude.{◌≡◌};
ghost use Rattle.std.specs.Option.{option_copied};
ghost use Rattle.std.specs.List.{list_any, slice_split};
ghost use Rattle.head_text.specs.ETags.{is_comma};
ghost use Rattle.op_decode.specs.Connections.{closes, has_close, is_close};

use super::headers::header;
use head_text::{is_same_name, trimmed};
use http_front::Raw;

/// Whether the connection ends with the reply: the request came by HTTP/1.0, or its Connection has the item `close`
/// in any case (RFC 9112, sections 9.3 and 9.6).
#[tactic(auto, unfolding(crate::specs::Connections::closes))]
pub fn closes(raw: &Raw) -> bool
    ensures { result ≡ closes raw.now }
{
    raw.minor == 0 || has_close(header(raw, b"connection"))
}

#[tactic(auto, unfolding(crate::specs::Connections::has_close))]
fn has_close(value: Option<&[u8]>) -> bool
    ensures { result ≡ has_close (option_copied value.entry) }
{
    match value {
        Some(value) => has_close_item(value),
        None => false,
    }
}

fn has_close_item(value: &[u8]) -> bool
    ensures { result ≡ list_any is_close (slice_split is_comma value.now) }
{
    value.split(|byte| *byte == b',').any(|item| is_close(item))
}

fn is_close(item: &[u8]) -> bool
    ensures { result ≡ is_close item.now }
{
    is_same_name(trimmed(item), b"close")
}
