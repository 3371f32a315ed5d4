ghost use Rattle.std.specs.Prelude.{◌≡◌, ◌≢◌, ◌<◌, ◌==◌, ◌↔◌, ◌⊎◌, [], ◌∷◌, length, IfSome, MatchOption, IsTrue, IsFalse, position};
ghost use Rattle.conn_io.specs.Crowded.{Crowded};
ghost use Rattle.http_front.specs.Lines.{TakesEmptyLine, BeginsNoEmptyLine, SkipsEmptyLines, TakesFullLine, BeginsNoFullLine, TakesFullLines, BeginsNoFullLines, BeginsText};

use super::limits::HEADERS_MOST;

// What follows the empty line at the front, if one is there.
fn after_empty_line(bytes: &[u8]) -> Option<&[u8]>
    ensures taken { MatchOption result (BeginsNoEmptyLine bytes.now) (λ rest. TakesEmptyLine bytes.now rest.now) }
    ensures shorter { IfSome result (λ rest. length rest.now < length bytes.now) }
{
    if let Some(rest) = bytes.strip_prefix(b"\n") {
        return Some(rest);
    }
    if let Some(rest) = bytes.strip_prefix(b"\r\n") {
        return Some(rest);
    }
    None
}

// What follows the empty lines at the front.
fn after_empty_lines(bytes: &[u8]) -> &[u8]
    ensures skipped { SkipsEmptyLines bytes.now result.now }
    ensures all { BeginsNoEmptyLine result.now }
{
    let mut rest = bytes;
    'skipping: loop {
        match after_empty_line(rest) {
            Some(more) => rest = more,
            None => return rest,
        }
    }
}

// Where the first line feed stands.
fn feed_place(bytes: &[u8]) -> Option<usize>
    ensures { result ≡ position (λ b. b == 10) bytes.now }
{
    bytes.iter().position(|byte| *byte == b'\n')
}

// Whether nothing stands before the end of a line.
fn is_bare(text: &[u8]) -> bool
    ensures bare { IsTrue result → (text.now ≡ []) ⊎ (text.now ≡ 13 ∷ []) }
    ensures full { IsFalse result → (text.now ≢ []) × (text.now ≢ 13 ∷ []) }
{
    text.is_empty() || text == b"\r".as_slice()
}

// What follows the line at the front, if that is whole and isn't empty.
fn after_full_line(bytes: &[u8]) -> Option<&[u8]>
    ensures { MatchOption result (BeginsNoFullLine bytes.now) (λ rest. TakesFullLine bytes.now rest.now) }
{
    let Some(feed) = feed_place(bytes) else {
        return None;
    };
    if is_bare(&bytes[..feed]) {
        return None;
    }
    Some(&bytes[feed + 1..])
}

// What follows the start line and as many header lines as a head may have, if they are whole and none of them is empty.
fn after_full_lines(bytes: &[u8]) -> Option<&[u8]>
    ensures { MatchOption result (BeginsNoFullLines bytes.now 65) (λ rest. TakesFullLines bytes.now 65 rest.now) }
{
    let mut rest = bytes;
    for _line in 0..HEADERS_MOST + 1 {
        match after_full_line(rest) {
            Some(more) => rest = more,
            None => return None,
        }
    }
    Some(rest)
}

// Whether the first byte is there and ends no line.
fn begins_text(bytes: &[u8]) -> bool
    ensures { IsTrue result ↔ BeginsText bytes.now }
{
    !bytes.is_empty() && bytes[0] != b'\n' && bytes[0] != b'\r'
}

/// Whether a header line more than a head may have has begun. It tells of it as soon as the line's first byte is there.
pub fn is_crowded(bytes: &[u8]) -> bool
    ensures { IsTrue result ↔ Crowded bytes.now }
{
    match after_full_lines(after_empty_lines(bytes)) {
        Some(rest) => begins_text(rest),
        None => false,
    }
}
