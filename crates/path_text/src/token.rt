ghost use Rattle.std.specs.Prelude.{◌≡◌, ◌∷◌, ◌++◌, ◌==◌, true, List, ℕ, bytes_eq, option_map, Some, IfOk, IfSome, OnOk, OnErr};
ghost use Rattle.std.specs.List.{flat_map};
ghost use Rattle.std.specs.Option.{option_copied};
ghost use Rattle.std.specs.Result.{result_ok};
ghost use Rattle.base64.specs.Engines.{standard};
ghost use Rattle.base64.specs.GeneralPurpose.{decoded_of};
ghost use Rattle.path_text.specs.Texts.{KeepsLimits, path_text, plain_path};
ghost use Rattle.path_text.specs.Tokens.{IsToken, full_text, path_if_said, is_on_page, path_said, token_bytes, token_path, token_text};

use super::fault::TargetStop;
use super::name::{FsName, Name};
use super::path::Path;
use super::plain::read_plain;
use base64::DecodeAllocError;
use base64::engine::general_purpose::STANDARD;
use std::alloc::{AllocError, Global};

/// Appends the token of a path: the base64 text, as in RFC 4648 with the standard alphabet and padding, of `/` and the path
/// without its filesystem, or on a page of the account, where there is no filesystem, of `/` and the filesystem's name. The path
/// begins with the filesystem that is given, and has one part where none is. The one error is want of memory, and nothing is
/// appended then.
#[tactic(auto, unfolding(crate::specs::Tokens::token_text))]
pub fn write_token(fs: Option<&FsName>, path: &Path, out: &mut Vec<u8>) -> Result<(), AllocError>
    requires { is_on_page (option_copied fs) path.now ≡ true }
    ensures written { OnOk result (out.new.items ≡ out.old.items ++ token_text (option_copied fs.entry) path.now) }
    ensures unchanged { OnErr result (out.new.items ≡ out.old.items) }
    ensures read_back { KeepsLimits path.now → token_path (option_copied fs.entry) (token_text (option_copied fs.entry) path.now) ≡ Some path.now }
{
    let alloc = *out.allocator();
    let bytes = token_bytes(alloc, fs, path)?;
    let text = STANDARD.encode(alloc, bytes.as_slice())?;
    out.extend_from_slice(text.as_bytes())
}

/// Reads a token: the path of it on a page of the filesystem that is given, or of the account where none is. The answer is
/// `None` exactly for a text that `write_token` writes for no path within the limits; the one error is want of memory.
pub fn read_token(
    alloc: Global,
    fs: Option<&FsName>,
    text: &[u8],
) -> Result<Option<Path>, AllocError>
    ensures value { IfOk result (λ found. found ≡ token_path (option_copied fs.entry) text.now) }
    ensures token { IfOk result (λ found. IfSome found (λ path. IsToken (option_copied fs.entry) text.now path)) }
    ensures found { (path : List (List ℕ)) → IsToken (option_copied fs.entry) text.now path → IfOk result (λ found. found ≡ Some path) }
{
    token_path(alloc, fs, text)
}

#[tactic(auto, unfolding(crate::specs::Tokens::token_path))]
fn token_path(alloc: Global, fs: Option<&FsName>, text: &[u8]) -> Result<Option<Path>, AllocError>
    ensures value { IfOk result (λ found. found ≡ token_path (option_copied fs.entry) text.now) }
    ensures limits { IfOk result (λ found. IfSome found KeepsLimits) }
{
    match decoded(alloc, text)? {
        Some(bytes) => path_said(alloc, fs, bytes.as_slice()),
        None => Ok(None),
    }
}

// The bytes of a base64 text.
fn decoded(alloc: Global, text: &[u8]) -> Result<Option<Vec<u8>>, AllocError>
    ensures { IfOk result (λ found. option_map (λ bytes. bytes.items) found ≡ decoded_of standard text.now) }
{
    match STANDARD.decode(alloc, text) {
        Ok(bytes) => Ok(Some(bytes)),
        Err(DecodeAllocError::OutOfMemory) => Err(AllocError),
        Err(DecodeAllocError::DecodeError(_)) => Ok(None),
    }
}

#[tactic(auto, unfolding(crate::specs::Tokens::path_said))]
fn path_said(alloc: Global, fs: Option<&FsName>, bytes: &[u8]) -> Result<Option<Path>, AllocError>
    ensures value { IfOk result (λ found. found ≡ path_said (option_copied fs.entry) bytes.now) }
    ensures limits { IfOk result (λ found. IfSome found KeepsLimits) }
{
    let text = full_text(alloc, fs, bytes)?;
    match plain_path(alloc, text.as_slice())? {
        Some(path) => path_if_said(alloc, fs, bytes, path),
        None => Ok(None),
    }
}

fn full_text(alloc: Global, fs: Option<&FsName>, bytes: &[u8]) -> Result<Vec<u8>, AllocError>
    ensures { IfOk result (λ text. text.items ≡ full_text (option_copied fs.entry) bytes.now) }
{
    let mut text = Vec::new(alloc);
    if let Some(fs) = fs {
        text.push(b'/')?;
        text.extend_from_slice(fs.bytes())?;
    }
    text.extend_from_slice(bytes)?;
    Ok(text)
}

fn plain_path(alloc: Global, text: &[u8]) -> Result<Option<Path>, AllocError>
    ensures value { IfOk result (λ found. found ≡ result_ok (plain_path text.now)) }
    ensures limits { IfOk result (λ found. IfSome found KeepsLimits) }
{
    match read_plain(alloc, text) {
        Ok(path) => Ok(Some(path)),
        Err(TargetStop::NoMemory) => Err(AllocError),
        Err(_) => Ok(None),
    }
}

#[tactic(auto, unfolding(crate::specs::Tokens::path_if_said))]
fn path_if_said(
    alloc: Global,
    fs: Option<&FsName>,
    bytes: &[u8],
    path: Path,
) -> Result<Option<Path>, AllocError>
    requires { KeepsLimits path }
    ensures value { IfOk result (λ found. found ≡ path_if_said (option_copied fs.entry) bytes.now path) }
    ensures limits { IfOk result (λ found. IfSome found KeepsLimits) }
{
    let said = token_bytes(alloc, fs, &path)?;
    if is_on_page(fs, &path) && said.as_slice() == bytes {
        Ok(Some(path))
    } else {
        Ok(None)
    }
}

fn is_on_page(fs: Option<&FsName>, path: &Path) -> bool
    ensures { result ≡ is_on_page (option_copied fs.entry) path.now }
{
    match (fs, path.fs()) {
        (Some(fs), Some(own)) => own == fs,
        (Some(_), None) => false,
        (None, Some(_)) => path.names().is_empty(),
        (None, None) => false,
    }
}

fn token_bytes(alloc: Global, fs: Option<&FsName>, path: &Path) -> Result<Vec<u8>, AllocError>
    ensures { IfOk result (λ bytes. bytes.items ≡ token_bytes (option_copied fs.entry) path.now) }
{
    match fs {
        Some(_) => names_text(alloc, path.names()),
        None => path_text(alloc, path),
    }
}

fn names_text(alloc: Global, names: &[Name]) -> Result<Vec<u8>, AllocError>
    ensures { IfOk result (λ text. text.items ≡ path_text names.now) }
{
    let mut text = Vec::new(alloc);
    if names.is_empty() {
        text.push(b'/')?;
        return Ok(text);
    }
    push_names(&mut text, names)?;
    Ok(text)
}

fn path_text(alloc: Global, path: &Path) -> Result<Vec<u8>, AllocError>
    ensures { IfOk result (λ text. text.items ≡ path_text path.now) }
{
    let mut text = Vec::new(alloc);
    text.push(b'/')?;
    let Some(fs) = path.fs() else {
        return Ok(text);
    };
    text.extend_from_slice(fs.bytes())?;
    push_names(&mut text, path.names())?;
    Ok(text)
}

// Appends `/` and a name for each of the names.
fn push_names(text: &mut Vec<u8>, names: &[Name]) -> Result<(), AllocError>
    ensures { OnOk result (text.new.items ≡ text.old.items ++ flat_map (λ name. 47 ∷ name) names.now) }
{
    for name in names {
        text.push(b'/')?;
        text.extend_from_slice(name.bytes())?;
    }
    Ok(())
}
