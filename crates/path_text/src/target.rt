ghost use Rattle.std.specs.Prelude.{◌≡◌, ◌≢◌, ◌==◌, ℕ, List, [], ◌∷◌, ◌++◌, map, position, IfOk, IfErr, OnOk, OnErr};
ghost use Rattle.std.specs.List.{after_first, before_first, flat_map, slice_split};
ghost use Rattle.std.specs.Option.{option_copied};
ghost use Rattle.std.specs.String.{string_bytes};
ghost use Rattle.path_text.specs.Faults.{Answers, IsTargetRefused};
ghost use Rattle.path_text.specs.Queries.{is_ampersand};
ghost use Rattle.path_text.specs.Texts.{KeepsLimits};
ghost use Rattle.path_text.specs.Targets.{SpellsTarget, escaped, has_bad_query, is_question_mark, pair_of, path_piece, query_pairs, query_piece, target_parts, target_path, written_path};
ghost use Rattle.path_text.specs.declared.fault.TargetStop.{TargetStop};

use super::escape::{bad_escape, decoded, push_escaped};
use super::fault::{PathFault, TargetStop};
use super::name::Name;
use super::path::Path;
use super::plain::read_plain;
use super::query::{Pair, Query};
use std::alloc::{AllocError, Global};

/// Reads the target of a request: a path that ends at the first `?`, and a query behind it. The path is decoded whole as RFC 3986
/// says, so `%2F` separates its parts like `/`. The query is cut at each `&`, each piece at its first `=`, and then decoded; `+`
/// stays `+`. Without a `?` there are no pairs; an empty query has one pair of empty texts.
///
/// A refusal is the first fault in this order: no `/` at the front, a bad escape, the faults of `read_plain` on the decoded text, then
/// `BadQuery` for a bad escape in the query. `NoMemory` may come at any time.
pub fn read_target(alloc: Global, target: &[u8]) -> Result<(Path, Query), TargetStop>
    ensures value { IfOk result (λ read. target_parts target.now ≡ Ok read) }
    ensures spelled { IfOk result (λ read. SpellsTarget target.now read.0 read.1) }
    ensures limits { IfOk result (λ read. KeepsLimits read.0) }
    ensures only { (path : List (List ℕ)) (pairs : List (List ℕ × List ℕ)) → SpellsTarget target.now path pairs → Answers result (Ok (path, pairs)) }
    ensures fault { IfErr result (λ stop. stop ≢ TargetStop.NoMemory → target_parts target.now ≡ Err stop) }
    ensures cause { (stop : TargetStop) → result ≡ Err stop → stop ≢ TargetStop.NoMemory → IsTargetRefused target.now stop }
    ensures refused { (stop : TargetStop) → IsTargetRefused target.now stop → Answers result (Err stop) }
{
    target_parts(alloc, target)
}

#[tactic(auto, unfolding(crate::specs::Targets::target_parts))]
fn target_parts(alloc: Global, target: &[u8]) -> Result<(Path, Query), TargetStop>
    ensures value { IfOk result (λ read. target_parts target.now ≡ Ok read) }
    ensures fault { IfErr result (λ stop. stop ≢ TargetStop.NoMemory → target_parts target.now ≡ Err stop) }
{
    let path = target_path(alloc, target)?;
    let query = query_piece(target);
    if has_bad_query(query) {
        return Err(TargetStop::BadQuery);
    }
    Ok((path, query_pairs(alloc, query)?))
}

#[tactic(auto, unfolding(crate::specs::Targets::target_path))]
fn target_path(alloc: Global, target: &[u8]) -> Result<Path, TargetStop>
    ensures value { IfOk result (λ path. target_path target.now ≡ Ok path) }
    ensures fault { IfErr result (λ stop. stop ≢ TargetStop.NoMemory → target_path target.now ≡ Err stop) }
{
    if target.is_empty() || target[0] != b'/' {
        return Err(TargetStop::Fault(PathFault::EmptyName(0)));
    }
    let piece = path_piece(target);
    if let Some(at) = bad_escape(piece) {
        return Err(TargetStop::Fault(PathFault::BadEscape(at)));
    }
    let text = decoded(alloc, piece)?;
    read_plain(alloc, text.as_slice())
}

// The target up to its first `?`.
fn path_piece(target: &[u8]) -> &[u8]
    ensures { result.now ≡ path_piece target.now }
{
    before(target, b'?')
}

// What stands behind the first `?`.
fn query_piece(target: &[u8]) -> Option<&[u8]>
    ensures { option_copied result ≡ query_piece target.now }
{
    match place_of(target, b'?') {
        Some(at) => Some(&target[at + 1..]),
        None => None,
    }
}

// The first place of a byte.
fn place_of(text: &[u8], byte: u8) -> Option<usize>
    ensures { result ≡ position (λ b. b == byte) text.now }
{
    text.iter().position(|b| *b == byte)
}

fn before(text: &[u8], byte: u8) -> &[u8]
    ensures { result.now ≡ before_first (λ b. b == byte) text.now }
{
    match place_of(text, byte) {
        Some(at) => &text[..at],
        None => text,
    }
}

fn after(text: &[u8], byte: u8) -> &[u8]
    ensures { result.now ≡ after_first (λ b. b == byte) text.now }
{
    match place_of(text, byte) {
        Some(at) => &text[at + 1..],
        None => &[],
    }
}

fn has_bad_query(query: Option<&[u8]>) -> bool
    ensures { result ≡ has_bad_query (option_copied query.entry) }
{
    match query {
        Some(text) => bad_escape(text).is_some(),
        None => false,
    }
}

#[tactic(auto, unfolding(crate::specs::Targets::query_pairs))]
fn query_pairs(alloc: Global, query: Option<&[u8]>) -> Result<Query, AllocError>
    ensures { IfOk result (λ read. read ≡ query_pairs (option_copied query.entry)) }
{
    match query {
        Some(text) => Ok(Query::new(pairs_of(alloc, text)?)),
        None => Ok(Query::new(Vec::new(alloc))),
    }
}

fn pairs_of(alloc: Global, text: &[u8]) -> Result<Vec<Pair>, AllocError>
    ensures { IfOk result (λ pairs. pairs.items ≡ map pair_of (slice_split is_ampersand text.now)) }
{
    let mut pairs = Vec::new(alloc);
    for piece in text.split(|byte| *byte == b'&') {
        pairs.push(pair_of(alloc, piece)?)?;
    }
    Ok(pairs)
}

#[tactic(auto, unfolding(crate::specs::Targets::pair_of))]
fn pair_of(alloc: Global, piece: &[u8]) -> Result<Pair, AllocError>
    ensures { IfOk result (λ pair. pair ≡ pair_of piece.now) }
{
    let key = decoded(alloc, before(piece, b'='))?;
    let value = decoded(alloc, after(piece, b'='))?;
    Ok(Pair::new(key, value))
}

/// Appends a path as a target: `/`, then its parts with `/` between them, each byte escaped as `%` and two upper-case hex digits
/// unless it is a letter, a digit, `-`, `.`, `_` or `~`. The one error is want of memory, and nothing is appended then.
pub fn write_path(path: &Path, out: &mut Vec<u8>) -> Result<(), AllocError>
    ensures written { OnOk result (out.new.items ≡ out.old.items ++ written_path path.now) }
    ensures unchanged { OnErr result (out.new.items ≡ out.old.items) }
    ensures read_back { KeepsLimits path.now → target_parts (written_path path.now) ≡ Ok (path.now, []) }
{
    let text = written_path(*out.allocator(), path)?;
    out.extend_from_slice(text.as_bytes())
}

fn written_path(alloc: Global, path: &Path) -> Result<String, AllocError>
    ensures { IfOk result (λ text. string_bytes text ≡ written_path path.now) }
{
    let mut text = String::from_str(alloc, "/")?;
    let Some(fs) = path.fs() else {
        return Ok(text);
    };
    push_escaped(&mut text, fs.bytes())?;
    push_escaped_names(&mut text, path.names())?;
    Ok(text)
}

// Appends `/` and an escaped name for each of the names.
fn push_escaped_names(text: &mut String, names: &[Name]) -> Result<(), AllocError>
    ensures { OnOk result (string_bytes text.new ≡ string_bytes text.old ++ flat_map (λ name. 47 ∷ escaped name) names.now) }
{
    for name in names {
        text.push_str("/")?;
        push_escaped(text, name.bytes())?;
    }
    Ok(())
}
