ghost use Rattle.std.specs.Prelude.{◌≡◌};
ghost use Rattle.std.specs.Option.{option_copied};
ghost use Rattle.op_decode.specs.Headers.{has_header, header, is_other_text, is_text};

use http_front::Raw;

/// The value of the first header of this name, in any case (RFC 9110, section 5.1).
pub fn header<'a>(raw: &'a Raw, name: &[u8]) -> Option<&'a [u8]>
    ensures { option_copied result ≡ header name.now raw.now }
{
    raw.headers.first(name)
}

/// Whether there is a header of this name.
pub fn has_header(raw: &Raw, name: &[u8]) -> bool
    ensures { result ≡ has_header name.now raw.now }
{
    header(raw, name).is_some()
}

/// Whether there is a value, and it is this text byte for byte.
pub fn is_text(value: Option<&[u8]>, text: &[u8]) -> bool
    ensures { result ≡ is_text text.now (option_copied value.entry) }
{
    match value {
        Some(value) => value == text,
        None => false,
    }
}

/// Whether there is a value, and it is another text.
pub fn is_other_text(value: Option<&[u8]>, text: &[u8]) -> bool
    ensures { result ≡ is_other_text text.now (option_copied value.entry) }
{
    match value {
        Some(value) => value != text,
        None => false,
    }
}
