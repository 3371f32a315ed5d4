//! Parameters that several operations have.

ghost use Rattle.std.specs.Prelude.{◌≡◌};
ghost use Rattle.std.specs.Option.{option_copied};
ghost use Rattle.op_decode.specs.Orders.{Answers};
ghost use Rattle.op_decode.specs.Parameters.{flag_in, flag_of, number_of, position_in, size_in, size_within, token_in};

use super::stop::Stop;
use head_text::read_dec;
use namespace_model::Code;
use path_text::{FsName, Path, Query, read_token};
use std::alloc::Global;

#[tactic(auto, unfolding(crate::specs::Parameters::flag_of))]
fn flag_of(text: Option<&[u8]>) -> Result<bool, Code>
    ensures { result ≡ flag_of (option_copied text.entry) }
{
    match text {
        None => Ok(false),
        Some(text) => {
            if text == b"true".as_slice() {
                Ok(true)
            } else if text == b"false".as_slice() {
                Ok(false)
            } else {
                Err(Code::InvalidQueryParameterValue)
            }
        }
    }
}

/// The flag of this name: `true` or `false`, and false where it is absent. Another text is
/// `InvalidQueryParameterValue`.
#[tactic(auto, unfolding(crate::specs::Parameters::flag_in))]
pub fn flag_in(name: &[u8], query: &Query) -> Result<bool, Code>
    ensures { result ≡ flag_in name.now query.now }
{
    flag_of(query.first(name))
}

fn number_of(text: &[u8]) -> Result<u64, Code>
    ensures { result ≡ number_of text.now }
{
    match read_dec(text) {
        Some(number) => Ok(number),
        None => Err(Code::InvalidQueryParameterValue),
    }
}

/// Where an append or a flush works, in bytes. Without it it is `MissingRequiredQueryParameter`, and text other than
/// 1 to 19 digits is `InvalidQueryParameterValue`.
#[tactic(auto, unfolding(crate::specs::Parameters::position_in))]
pub fn position_in(query: &Query) -> Result<u64, Code>
    ensures { result ≡ position_in query.now }
{
    match query.first(b"position") {
        Some(text) => number_of(text),
        None => Err(Code::MissingRequiredQueryParameter),
    }
}

fn size_within(most: u32, size: u64) -> Result<u32, Code>
    ensures { result ≡ size_within most size }
{
    if size == 0 {
        Err(Code::OutOfRangeQueryParameterValue)
    } else if size <= u64::from(most) {
        Ok(size as u32)
    } else {
        Ok(most)
    }
}

/// The size of a page or a batch of this name, in nodes, and the greatest one where it is absent or above that. A
/// size of 0 is `OutOfRangeQueryParameterValue`, and text other than 1 to 19 digits is `InvalidQueryParameterValue`.
#[tactic(auto, unfolding(crate::specs::Parameters::size_in))]
pub fn size_in(name: &[u8], most: u32, query: &Query) -> Result<u32, Code>
    ensures { result ≡ size_in name.now most query.now }
{
    match query.first(name) {
        Some(text) => size_within(most, number_of(text)?),
        None => Ok(most),
    }
}

/// Where a page of the filesystem goes on, or of the account where none is given; the empty text is the beginning. A
/// text that is no token is `InvalidQueryParameterValue`.
#[tactic(auto, unfolding(crate::specs::Parameters::token_in))]
pub fn token_in(alloc: Global, fs: Option<&FsName>, query: &Query) -> Result<Option<Path>, Stop>
    ensures { Answers result (token_in (option_copied fs.entry) query.now) }
{
    let Some(text) = query.first(b"continuation") else {
        return Ok(None);
    };
    if text.is_empty() {
        return Ok(None);
    }
    match read_token(alloc, fs, text)? {
        Some(path) => Ok(Some(path)),
        None => Err(Stop::Refused(Code::InvalidQueryParameterValue)),
    }
}
