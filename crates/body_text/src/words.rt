ghost use Rattle.std.specs.Prelude.{◌≡◌, ◌++◌, ◌∷◌, IfOk, IsUtf8, OnOk, string_bytes};
ghost use Rattle.std.specs.List.{flat_map, join_with_byte};

use path_text::Name;
use std::alloc::{AllocError, Global};
use std::str::from_utf8;

// The text of these bytes.
pub(crate) fn text_of(alloc: Global, bytes: &[u8]) -> Result<String, AllocError>
    requires { IsUtf8 bytes.now }
    ensures { IfOk result (λ text. string_bytes text ≡ bytes.now) }
{
    match from_utf8(bytes) {
        Ok(text) => String::from_str(alloc, text),
        Err(_) => unreachable!(),
    }
}

// The names with `/` between them.
pub(crate) fn joined(alloc: Global, names: &[Name]) -> Result<String, AllocError>
    ensures { IfOk result (λ text. string_bytes text ≡ join_with_byte 47 names.now) }
{
    let Some((first, rest)) = names.split_first() else {
        return Ok(String::new(alloc));
    };
    let mut text = String::from_str(alloc, first.as_str())?;
    push_names(&mut text, rest)?;
    Ok(text)
}

// All of these names with `/` between them.
pub(crate) fn joined_both(
    alloc: Global,
    front: &[Name],
    back: &[Name],
) -> Result<String, AllocError>
    ensures { IfOk result (λ text. string_bytes text ≡ join_with_byte 47 (front.now ++ back.now)) }
{
    if front.is_empty() {
        return joined(alloc, back);
    }
    let mut text = joined(alloc, front)?;
    push_names(&mut text, back)?;
    Ok(text)
}

// Appends `/` and a name for each of the names.
fn push_names(text: &mut String, names: &[Name]) -> Result<(), AllocError>
    ensures { OnOk result (string_bytes text.new ≡ string_bytes text.old ++ flat_map (λ name. 47 ∷ name) names.now) }
{
    for name in names {
        text.push_str("/")?;
        text.push_str(name.as_str())?;
    }
    Ok(())
}
