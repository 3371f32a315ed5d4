ghost use Rattle.std.specs.Prelude.{◌≡◌, ◌≢◌, ◌≤◌, ◌<◌, true, ℕ, List, length, count_by, position, IfOk, IfErr};
ghost use Rattle.std.specs.List.{list_all, slice_split};
ghost use Rattle.std.specs.Str.Lossy.{utf8_valid_len};
ghost use Rattle.path_text.specs.Names.{are_parts, is_control, is_dots, is_name, is_slash};
ghost use Rattle.path_text.specs.Texts.{KeepsLimits, Spells, inner, part_fault, parts_fault, plain_path, size_fault, split_parts, text_fault, without_end};
ghost use Rattle.path_text.specs.Faults.{Answers, IsPathFault};
ghost use Rattle.path_text.specs.declared.fault.PathFault.{PathFault};
ghost use Rattle.path_text.specs.declared.fault.TargetStop.{TargetStop};

use super::fault::{PathFault, TargetStop};
use super::limits::{DEPTH_MOST, NAME_MOST, PATH_MOST};
use super::name::{Name, is_fs_name};
use super::path::Path;
use std::alloc::{AllocError, Global};
use std::str::from_utf8;

/// Reads the text of a path that isn't escaped: `/`, then the parts with `/` between them, and perhaps one `/` at the end. Any bytes
/// may be given.
///
/// A refusal is the first fault in this order: no `/` at the front, UTF-8, control bytes, length, depth, then the parts from the left,
/// of which each may be empty, a bad name of a filesystem, `.` or `..`, or too long. `NoMemory` may come at any time; `BadQuery` never
/// comes.
pub fn read_plain(alloc: Global, text: &[u8]) -> Result<Path, TargetStop>
    ensures path { IfOk result (λ path. plain_path text.now ≡ Ok path) }
    ensures spelled { IfOk result (λ path. Spells text.now path) }
    ensures limits { IfOk result KeepsLimits }
    ensures only { (path : List (List ℕ)) → KeepsLimits path → Spells text.now path → Answers result (Ok path) }
    ensures fault { IfErr result (λ stop. stop ≢ TargetStop.NoMemory → plain_path text.now ≡ Err stop) }
    ensures cause { (fault : PathFault) → result ≡ Err (TargetStop.Fault fault) → IsPathFault text.now fault }
    ensures refused { (fault : PathFault) → IsPathFault text.now fault → Answers result (Err (TargetStop.Fault fault)) }
{
    path_of_text(alloc, text)
}

#[tactic(auto, unfolding(crate::specs::Texts::plain_path))]
fn path_of_text(alloc: Global, text: &[u8]) -> Result<Path, TargetStop>
    ensures path { IfOk result (λ path. plain_path text.now ≡ Ok path) }
    ensures fault { IfErr result (λ stop. stop ≢ TargetStop.NoMemory → plain_path text.now ≡ Err stop) }
{
    if let Some(fault) = text_fault(text) {
        return Err(TargetStop::Fault(fault));
    }
    Ok(path_between(alloc, inner(text))?)
}

// The first fault of a text.
#[tactic(auto, unfolding(crate::specs::Texts::text_fault))]
fn text_fault(text: &[u8]) -> Option<PathFault>
    ensures { result ≡ text_fault text.now }
{
    if text.is_empty() || text[0] != b'/' {
        return Some(PathFault::EmptyName(0));
    }
    let valid = valid_len(text);
    if valid != text.len() {
        return Some(PathFault::NotUtf8(valid));
    }
    if let Some(at) = control_byte(text) {
        return Some(PathFault::ControlByte(at));
    }
    size_fault(inner(text))
}

// The place of the first control byte.
fn control_byte(text: &[u8]) -> Option<usize>
    ensures { result ≡ position is_control text.now }
{
    text.iter().position(|byte| is_control(*byte))
}

// How far the text is UTF-8.
fn valid_len(text: &[u8]) -> usize
    ensures { result ≡ utf8_valid_len text.now }
{
    match from_utf8(text) {
        Ok(_) => text.len(),
        Err(error) => error.valid_up_to(),
    }
}

fn is_control(byte: u8) -> bool
    ensures { result ≡ is_control byte }
{
    byte < 32 || byte == 127
}

// What stands between the slash at the front and one at the end.
#[tactic(auto, unfolding(crate::specs::Texts::inner))]
fn inner(text: &[u8]) -> &[u8]
    ensures { result.now ≡ inner text.now }
{
    match text.split_first() {
        Some((_, rest)) => without_end(rest),
        None => without_end(text),
    }
}

fn without_end(rest: &[u8]) -> &[u8]
    ensures { result.now ≡ without_end rest.now }
{
    if rest.is_empty() || rest[rest.len() - 1] != b'/' {
        return rest;
    }
    &rest[..rest.len() - 1]
}

#[tactic(auto, unfolding(crate::specs::Texts::size_fault, crate::specs::Texts::split_parts))]
fn size_fault(rest: &[u8]) -> Option<PathFault>
    ensures { result ≡ size_fault rest.now }
{
    if PATH_MOST < rest.len() {
        return Some(PathFault::PathTooLong);
    }
    if rest.is_empty() {
        return None;
    }
    if DEPTH_MOST <= slashes(rest) {
        return Some(PathFault::TooDeep);
    }
    parts_fault(rest)
}

fn slashes(rest: &[u8]) -> usize
    ensures { result ≡ count_by is_slash rest.now }
{
    rest.iter().filter(|byte| **byte == b'/').count()
}

fn parts_fault(rest: &[u8]) -> Option<PathFault>
    requires { length rest.now ≤ 1024 }
    ensures { result ≡ parts_fault 0 (slice_split is_slash rest.now) }
{
    let mut place = 0;
    for part in rest.split(|byte| *byte == b'/') {
        let fault = part_fault(place, part);
        if fault.is_some() {
            return fault;
        }
        place += 1;
    }
    None
}

fn part_fault(place: usize, part: &[u8]) -> Option<PathFault>
    ensures { result ≡ part_fault place part.now }
{
    if part.is_empty() {
        Some(PathFault::EmptyName(place))
    } else if place == 0 {
        if is_fs_name(part) {
            None
        } else {
            Some(PathFault::BadFsName)
        }
    } else if is_dots(part) {
        Some(PathFault::DotName(place))
    } else if NAME_MOST < part.len() {
        Some(PathFault::NameTooLong(place))
    } else {
        None
    }
}

fn is_dots(part: &[u8]) -> bool
    ensures { result ≡ is_dots part.now }
{
    part == b".".as_slice() || part == b"..".as_slice()
}

// The path whose parts stand between the slashes.
#[tactic(auto, unfolding(crate::specs::Texts::split_parts))]
fn path_between(alloc: Global, rest: &[u8]) -> Result<Path, AllocError>
    requires { are_parts (split_parts rest.now) ≡ true }
    ensures { IfOk result (λ path. path ≡ split_parts rest.now) }
{
    if rest.is_empty() {
        return Ok(Path::account());
    }
    Ok(Path::of_parts(names_between(alloc, rest)?))
}

fn names_between(alloc: Global, rest: &[u8]) -> Result<Vec<Name>, AllocError>
    requires { list_all is_name (slice_split is_slash rest.now) ≡ true }
    ensures { IfOk result (λ names. names.items ≡ slice_split is_slash rest.now) }
{
    let mut names = Vec::new(alloc);
    for part in rest.split(|byte| *byte == b'/') {
        names.push(Name::of_bytes(alloc, part)?)?;
    }
    Ok(names)
}
