ghost use Rattle.std.specs.Prelude.{◌≡◌, IfSome, Some, position};
ghost use Rattle.head_text.specs.Ranges.{SpellsRange, is_hyphen, range_of, bytes_range, with_end};
ghost use Rattle.head_text.specs.declared.range.Range.{Range};

use super::decimal::read_dec;

/// A range of the bytes of a file (RFC 9110, section 14.1.2), in bytes from 0.
#[derive(Clone, Copy, Debug, PartialEq, Eq)]
pub struct Range {
    /// The first byte.
    pub from: u64,
    /// The last byte, where the range has one.
    pub to: Option<u64>,
}

/// Reads `bytes=a-` or `bytes=a-b`, where `a` and `b` are numbers as `read_dec` reads them, and `a` is at most `b`. The answer is
/// `None` exactly for another text.
pub fn read_range(text: &[u8]) -> Option<Range>
    ensures value { result ≡ range_of text.now }
    ensures found { IfSome result (SpellsRange text.now) }
    ensures only { (range : Range) → SpellsRange text.now range → result ≡ Some range }
{
    range_of(text)
}

fn range_of(text: &[u8]) -> Option<Range>
    ensures { result ≡ range_of text.now }
{
    match text.strip_prefix(b"bytes=".as_slice()) {
        Some(bytes) => bytes_range(bytes),
        None => None,
    }
}

fn bytes_range(bytes: &[u8]) -> Option<Range>
    ensures { result ≡ bytes_range bytes.now }
{
    match hyphen_of(bytes) {
        Some(at) => match read_dec(&bytes[..at]) {
            Some(from) => with_end(from, &bytes[at + 1..]),
            None => None,
        },
        None => None,
    }
}

// The place of the first `-`.
fn hyphen_of(bytes: &[u8]) -> Option<usize>
    ensures { result ≡ position is_hyphen bytes.now }
{
    bytes.iter().position(|byte| *byte == b'-')
}

fn with_end(from: u64, end: &[u8]) -> Option<Range>
    ensures { result ≡ with_end from end.now }
{
    if end.is_empty() {
        return Some(Range { from, to: None });
    }
    match read_dec(end) {
        Some(to) if from <= to => Some(Range { from, to: Some(to) }),
        _ => None,
    }
}
