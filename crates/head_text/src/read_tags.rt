ghost use Rattle.std.specs.Prelude.{◌≡◌, ◌≤◌, IfOk, true, length};
ghost use Rattle.std.specs.Char.{digit_value, is_ascii_hexdigit};
ghost use Rattle.std.specs.List.{list_all, filter_map, slice_split};
ghost use Rattle.std.specs.Str.Parse.{digits_value};
ghost use Rattle.head_text.specs.ETags.{etags_of, is_comma, is_quoted, item_number, tag_number, without_quotes, without_weak};

use super::blanks::trimmed;
use super::etag_list::ETagList;
use std::alloc::{AllocError, Global};

/// Reads the entity tags of a condition: `*`, which is any tag, or items between commas. An item is trimmed of spaces and tabs, and then
/// freed of one `W/` in front and of the quotes round it; `0x` and 16 hex digits in either case are a number, and an item of another form is
/// dropped, since it is no node's tag. The one error is want of memory.
pub fn read_etags(alloc: Global, text: &[u8]) -> Result<ETagList, AllocError>
    ensures { IfOk result (λ tags. tags ≡ etags_of text.now) }
{
    tags_of(alloc, text)
}

#[tactic(auto, unfolding(crate::specs::ETags::etags_of))]
fn tags_of(alloc: Global, text: &[u8]) -> Result<ETagList, AllocError>
    ensures { IfOk result (λ tags. tags ≡ etags_of text.now) }
{
    if trimmed(text) == b"*".as_slice() {
        return Ok(ETagList::new(true, Vec::new(alloc)));
    }
    Ok(ETagList::new(false, numbers_of(alloc, text)?))
}

fn numbers_of(alloc: Global, text: &[u8]) -> Result<Vec<u64>, AllocError>
    ensures { IfOk result (λ numbers. numbers.items ≡ filter_map item_number (slice_split is_comma text.now)) }
{
    let mut numbers = Vec::new(alloc);
    for item in text.split(|byte| *byte == b',') {
        match item_number(item) {
            Some(number) => numbers.push(number)?,
            None => {}
        }
    }
    Ok(numbers)
}

fn item_number(item: &[u8]) -> Option<u64>
    ensures { result ≡ item_number item.now }
{
    tag_number(without_quotes(without_weak(trimmed(item))))
}

#[tactic(auto, unfolding(crate::specs::ETags::without_weak))]
fn without_weak(text: &[u8]) -> &[u8]
    ensures { result.now ≡ without_weak text.now }
{
    match text.strip_prefix(b"W/".as_slice()) {
        Some(rest) => rest,
        None => text,
    }
}

fn is_quoted(text: &[u8]) -> bool
    ensures { result ≡ is_quoted text.now }
{
    2 <= text.len() && text[0] == b'"' && text[text.len() - 1] == b'"'
}

#[tactic(auto, unfolding(crate::specs::ETags::without_quotes))]
fn without_quotes(text: &[u8]) -> &[u8]
    ensures { result.now ≡ without_quotes text.now }
{
    if is_quoted(text) {
        &text[1..text.len() - 1]
    } else {
        text
    }
}

#[tactic(auto, unfolding(crate::specs::ETags::tag_number))]
fn tag_number(text: &[u8]) -> Option<u64>
    ensures { result ≡ tag_number text.now }
{
    if text.len() == 18 && text.starts_with(b"0x".as_slice()) && are_hex(&text[2..]) {
        Some(hex_value(&text[2..]))
    } else {
        None
    }
}

fn are_hex(text: &[u8]) -> bool
    ensures { result ≡ list_all is_ascii_hexdigit text.now }
{
    text.iter().all(|byte| byte.is_ascii_hexdigit())
}

// The number that sixteen hex digits write, which is below 2^64.
fn hex_value(text: &[u8]) -> u64
    requires sixteen { length text.now ≡ 16 }
    requires digits { list_all is_ascii_hexdigit text.now ≡ true }
    ensures { result ≡ digits_value 16 text.now }
{
    let mut value = 0u64;
    for byte in text {
        value = value * 16 + u64::from(hex_digit_value(*byte));
    }
    value
}

fn hex_digit_value(byte: u8) -> u8
    requires { is_ascii_hexdigit byte ≡ true }
    ensures { result ≡ digit_value byte }
{
    match byte {
        b'0'..=b'9' => byte - b'0',
        b'a'..=b'f' => byte - b'a' + 10,
        _ => byte - b'A' + 10,
    }
}
