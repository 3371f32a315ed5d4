ghost use Rattle.std.specs.Prelude.{◌≡◌, [], ℕ, bytes_eq, List, Ok, Err, IfOk, map, position, option_map};
ghost use Rattle.std.specs.List.{list_all, list_any};
ghost use Rattle.head_text.specs.Properties.{Property, is_name, is_name_byte, property_of};
ghost use Rattle.head_text.specs.PropertyPlaces.{place_of};
ghost use Rattle.head_text.specs.PropertyStops.{Answers, AnswersBy};
ghost use Rattle.head_text.specs.PropertyTexts.{IsPropertiesText, IsTextFault, is_equals, is_named, items_of, properties_of, property_said, read_from, value_of, with_property};
ghost use Rattle.head_text.specs.declared.props_fault.PropsFault.{PropsFault};
ghost use Rattle.head_text.specs.declared.props_fault.PropsStop.{PropsStop};

use super::blanks::trimmed;
use super::props::Props;
use super::props_fault::{PropsFault, PropsStop};
use base64::DecodeAllocError;
use base64::engine::general_purpose::STANDARD;
use std::alloc::{AllocError, Global};
use std::cmp::Ordering;

/// Reads properties as the header `x-ms-properties` has them: pairs `name=value` that commas part, each trimmed of spaces and tabs
/// and split at its first `=`. A name has one or more ASCII letters, digits, `_` or `-`; a value is in base64 with the standard
/// alphabet and padding (RFC 4648, section 4). The empty text has no pairs.
///
/// The error is `NoMemory` for want of memory, which can come at each text, or a fault: `TooMany` for over 64 items; else that of the first item that has one, which is `BadPair` for an item that is no pair
/// of a name and a value, `BadBase64` for a value that isn't base64, and `Twice` for a name that stood before. Places are counted from 0.
pub fn read_props(alloc: Global, text: &[u8]) -> Result<Props, PropsStop>
    ensures found { IfOk result (IsPropertiesText text.now) }
    ensures only { (pairs : List Property) → IsPropertiesText text.now pairs → Answers result (Ok pairs) }
    ensures fault { (f : PropsFault) → result ≡ Err (PropsStop.Fault f) → IsTextFault text.now f }
    ensures refused { (f : PropsFault) → IsTextFault text.now f → Answers result (Err f) }
    ensures exact { Answers result (properties_of text.now) }
{
    properties_of(alloc, text)
}

#[tactic(auto, unfolding(crate::specs::PropertyTexts::properties_of))]
fn properties_of(alloc: Global, text: &[u8]) -> Result<Props, PropsStop>
    ensures { Answers result (properties_of text.now) }
{
    let items = items_of(alloc, text)?;
    if 64 < items.len() {
        return Err(PropsStop::Fault(PropsFault::TooMany));
    }
    Ok(Props::new(pairs_of(alloc, items.as_slice())?))
}

// The items that commas part.
fn items_of(alloc: Global, text: &[u8]) -> Result<Vec<&[u8]>, AllocError>
    ensures { IfOk result (λ items. map (λ item. item.now) items.items ≡ items_of text.now) }
{
    if text.is_empty() {
        return Ok(Vec::new(alloc));
    }
    text.split(|byte| *byte == b',').collect(alloc)
}

fn pairs_of(alloc: Global, items: &[&[u8]]) -> Result<Vec<(Vec<u8>, Vec<u8>)>, PropsStop>
    ensures { AnswersBy (λ pairs. map property_of pairs.items) result (read_from 0 [] (map (λ item. item.now) items.now)) }
{
    let mut pairs = Vec::new(alloc);
    for (at, item) in items.iter().enumerate() {
        let pair = property_said(alloc, at, item)?;
        put_property(&mut pairs, at, pair)?;
    }
    Ok(pairs)
}

#[tactic(auto, unfolding(crate::specs::PropertyTexts::property_said))]
fn property_said(alloc: Global, at: usize, item: &[u8]) -> Result<(Vec<u8>, Vec<u8>), PropsStop>
    ensures { AnswersBy property_of result (property_said at item.now) }
{
    let text = trimmed(item);
    let Some(end) = equals_of(text) else {
        return Err(PropsStop::Fault(PropsFault::BadPair(at)));
    };
    if !is_name(&text[..end]) {
        return Err(PropsStop::Fault(PropsFault::BadPair(at)));
    }
    match value_of(alloc, &text[end + 1..])? {
        Some(value) => Ok((text[..end].to_vec(alloc)?, value)),
        None => Err(PropsStop::Fault(PropsFault::BadBase64(at))),
    }
}

// The place of the first `=`.
fn equals_of(text: &[u8]) -> Option<usize>
    ensures { result ≡ position is_equals text.now }
{
    text.iter().position(|byte| *byte == b'=')
}

fn is_name(text: &[u8]) -> bool
    ensures { result ≡ is_name text.now }
{
    1 <= text.len() && are_name_bytes(text)
}

fn are_name_bytes(text: &[u8]) -> bool
    ensures { result ≡ list_all is_name_byte text.now }
{
    text.iter().all(|byte| is_name_byte(*byte))
}

fn is_name_byte(byte: u8) -> bool
    ensures { result ≡ is_name_byte byte }
{
    byte.is_ascii_alphanumeric() || byte == b'_' || byte == b'-'
}

// The bytes that a base64 text says.
#[tactic(auto, unfolding(crate::specs::PropertyTexts::value_of))]
fn value_of(alloc: Global, text: &[u8]) -> Result<Option<Vec<u8>>, AllocError>
    ensures { IfOk result (λ found. option_map (λ value. value.items) found ≡ value_of text.now) }
{
    match STANDARD.decode(alloc, text) {
        Ok(value) => Ok(Some(value)),
        Err(DecodeAllocError::OutOfMemory) => Err(AllocError),
        Err(DecodeAllocError::DecodeError(_)) => Ok(None),
    }
}

// Puts the property of the item at a place among those that stood before.
#[tactic(auto, unfolding(crate::specs::PropertyTexts::with_property))]
fn put_property(
    pairs: &mut Vec<(Vec<u8>, Vec<u8>)>,
    at: usize,
    pair: (Vec<u8>, Vec<u8>),
) -> Result<(), PropsStop>
    ensures { AnswersBy (λ _. map property_of pairs.new.items) result (with_property at (map property_of pairs.old.items) (property_of pair)) }
{
    if is_named(pairs.as_slice(), pair.0.as_slice()) {
        return Err(PropsStop::Fault(PropsFault::Twice(at)));
    }
    let place = place_of(pairs.as_slice(), pair.0.as_slice());
    pairs.insert(place, pair)?;
    Ok(())
}

fn is_named(pairs: &[(Vec<u8>, Vec<u8>)], name: &[u8]) -> bool
    ensures { result ≡ list_any (λ pair. bytes_eq pair.0.items name.now) pairs.now }
{
    pairs.iter().any(|pair| pair.0.as_slice() == name)
}

fn place_of(pairs: &[(Vec<u8>, Vec<u8>)], name: &[u8]) -> usize
    ensures { result ≡ place_of name.now (map property_of pairs.now) }
{
    let mut at = 0;
    for pair in pairs {
        match name.cmp(pair.0.as_slice()) {
            Ordering::Less | Ordering::Equal => return at,
            Ordering::Greater => at += 1,
        }
    }
    at
}
