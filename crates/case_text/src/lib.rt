//! Bytes as a file of cases writes them.
//!
//! A text stands for its own bytes, but where a backslash begins one of these: `\s` a space, `\t` a tab, `\r` and `\n` the two bytes of
//! an end of line, `\x5c` the byte with these two hexadecimal digits, `\{63 ab}` 63 times `ab`. The programs `text_cases` and
//! `conversation_cases` read their files by it. Nothing is proved of it but that it is safe and ends.
#![tactic(auto)]

ghost use Rattle.std.specs.Prelude.{◌<◌, IfSome};

use std::alloc::{AllocError, Global};

/// The bytes that the text stands for, or none where a backslash begins something else. The one error is want of memory.
pub fn bytes_of(alloc: Global, text: &str) -> Result<Option<Vec<u8>>, AllocError> {
    let mut bytes = Vec::new(alloc);
    let mut first = true;
    for part in text.split('\\') {
        let is_read = if first {
            bytes.extend_from_slice(part.as_bytes())?;
            true
        } else {
            push_escape(&mut bytes, part)?
        };
        if !is_read {
            return Ok(None);
        }
        first = false;
    }
    Ok(Some(bytes))
}

// Appends what stands behind a backslash, and answers whether it could be read.
fn push_escape(bytes: &mut Vec<u8>, part: &str) -> Result<bool, AllocError> {
    let Some((letter, rest)) = part.as_bytes().split_first() else {
        return Ok(false);
    };
    match letter {
        b'{' => push_repeated(bytes, part),
        b'x' => push_hex(bytes, rest),
        b's' => push_byte(bytes, b' ', rest),
        b't' => push_byte(bytes, b'\t', rest),
        b'r' => push_byte(bytes, b'\r', rest),
        b'n' => push_byte(bytes, b'\n', rest),
        _ => Ok(false),
    }
}

fn push_byte(bytes: &mut Vec<u8>, byte: u8, rest: &[u8]) -> Result<bool, AllocError> {
    bytes.push(byte)?;
    bytes.extend_from_slice(rest)?;
    Ok(true)
}

// Of `5cab` the byte 92, and `ab`.
fn push_hex(bytes: &mut Vec<u8>, digits: &[u8]) -> Result<bool, AllocError> {
    match digits {
        [high, low, rest @ ..] => match (digit(*high), digit(*low)) {
            (Some(high), Some(low)) => push_byte(bytes, high * 16 + low, rest),
            _ => Ok(false),
        },
        _ => Ok(false),
    }
}

fn digit(byte: u8) -> Option<u8>
    ensures { IfSome result (λ d. d < 16) }
{
    match byte {
        b'0'..=b'9' => Some(byte - b'0'),
        b'a'..=b'f' => Some(byte - b'a' + 10),
        _ => None,
    }
}

// Of `{63 ab}cd` 63 times `ab`, and `cd`.
fn push_repeated(bytes: &mut Vec<u8>, part: &str) -> Result<bool, AllocError> {
    let Some((count, piece, rest)) = repeated(part) else {
        return Ok(false);
    };
    for _ in 0..count {
        bytes.extend_from_slice(piece)?;
    }
    bytes.extend_from_slice(rest)?;
    Ok(true)
}

fn repeated(part: &str) -> Option<(u32, &[u8], &[u8])> {
    let (inside, rest) = part.strip_prefix('{')?.split_once('}')?;
    let (count, piece) = inside.split_once(' ')?;
    Some((count.parse().ok()?, piece.as_bytes(), rest.as_bytes()))
}

/// Appends the bytes as such a text: each byte that is no visible ASCII and no space within is written as `\x` and two digits. The one
/// error is want of memory.
pub fn push_text(out: &mut String, bytes: &[u8]) -> Result<(), AllocError> {
    for byte in bytes {
        push_text_of(out, *byte)?;
    }
    Ok(())
}

fn push_text_of(out: &mut String, byte: u8) -> Result<(), AllocError> {
    if byte.is_ascii_graphic() || byte == b' ' {
        out.push(char::from(byte))
    } else {
        write!(out, "\\x{byte:02x}")
    }
}
