// Answers as bytes.
use std::alloc::{AllocError, Global};

/// Appends a text.
pub fn say(out: &mut Vec<u8>, text: &str) -> Result<(), AllocError> {
    out.extend_from_slice(text.as_bytes())
}

/// Appends a number, or `none`.
pub fn say_number(alloc: Global, out: &mut Vec<u8>, number: Option<u64>) -> Result<(), AllocError> {
    match number {
        Some(number) => say(out, format!(in alloc; "{number}")?.as_str()),
        None => say(out, "none"),
    }
}

/// Appends bytes, or `none`.
pub fn say_bytes(out: &mut Vec<u8>, bytes: Option<&[u8]>) -> Result<(), AllocError> {
    match bytes {
        Some(bytes) => out.extend_from_slice(bytes),
        None => say(out, "none"),
    }
}

/// Appends one of two words.
pub fn say_whether(out: &mut Vec<u8>, is_so: bool, words: (&str, &str)) -> Result<(), AllocError> {
    say(out, if is_so { words.0 } else { words.1 })
}

/// The text up to the first space, and what stands behind it.
pub fn split(text: &[u8]) -> (&[u8], &[u8]) {
    match text.iter().position(|byte| *byte == b' ') {
        Some(at) => (&text[..at], text[at..].trim_ascii()),
        None => (text, b""),
    }
}
