ghost use Rattle.std.specs.Prelude.{◌≡◌, ◌++◌, ◌∷◌, [], ◌==◌, length, map, Ok, IfOk, OnOk, is_ok, if◌then◌else◌};
ghost use Rattle.head_text.specs.Properties.{property_of};
ghost use Rattle.head_text.specs.PropertyTexts.{properties_of, properties_text, property_text};

use super::props::Props;
use base64::engine::general_purpose::STANDARD;
use std::alloc::{AllocError, Global};

/// Writes properties at the end of a text as `read_props` reads them: `name=value` by ascending name, joined by commas, with the
/// value in base64 (RFC 4648, section 4). The one error is want of memory, and leaves the text as it was.
pub fn write_props(props: &Props, out: &mut Vec<u8>) -> Result<(), AllocError>
    ensures text { out.new.items ≡ (if is_ok result then out.old.items ++ properties_text props.now else out.old.items) }
    ensures read_back { properties_of (properties_text props.now) ≡ Ok props.now }
{
    let text = properties_text(*out.allocator(), props.pairs())?;
    out.extend_from_slice(text.as_slice())
}

#[tactic(auto, unfolding(crate::specs::PropertyTexts::properties_text))]
fn properties_text(alloc: Global, pairs: &[(Vec<u8>, Vec<u8>)]) -> Result<Vec<u8>, AllocError>
    ensures { IfOk result (λ text. text.items ≡ properties_text (map property_of pairs.now)) }
{
    let mut text = Vec::new(alloc);
    for pair in pairs {
        part(&mut text)?;
        push_property(&mut text, pair.0.as_slice(), pair.1.as_slice())?;
    }
    Ok(text)
}

// Appends a comma to a text that isn't empty.
fn part(text: &mut Vec<u8>) -> Result<(), AllocError>
    ensures { OnOk result (text.new.items ≡ (if length text.old.items == 0 then text.old.items else text.old.items ++ 44 ∷ [])) }
{
    if !text.is_empty() {
        text.push(b',')?;
    }
    Ok(())
}

fn push_property(text: &mut Vec<u8>, name: &[u8], value: &[u8]) -> Result<(), AllocError>
    ensures { OnOk result (text.new.items ≡ text.old.items ++ property_text (name.now, value.now)) }
{
    let value = STANDARD.encode(*text.allocator(), value)?;
    text.extend_from_slice(name)?;
    text.push(b'=')?;
    text.extend_from_slice(value.as_bytes())
}
