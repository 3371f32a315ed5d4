ghost use Rattle.std.specs.Prelude.{◌≡◌};
ghost use Rattle.head_text.specs.Conditions.{match_holds, unmodified_holds, none_match_holds, modified_holds};
ghost use Rattle.head_text.specs.ConditionsOf.{conditions_of};

use super::conditions::{Conditions, Unmet};
use super::etag_list::ETagList;

/// Judges the conditions of a request on a node, by its number and its moment in milliseconds since 1970, or on no node. Against a date a
/// moment counts in whole seconds. A condition that isn't given holds. The answer is the first that fails, in the order If-Match,
/// If-Unmodified-Since, If-None-Match, If-Modified-Since.
pub fn conditions_hold(c: &Conditions, node: Option<(u64, u64)>) -> Result<(), Unmet>
    ensures { result ≡ conditions_of c.now node }
{
    if !match_holds(&c.matches, node) {
        return Err(Unmet::Match);
    }
    if !unmodified_holds(c.unmodified, node) {
        return Err(Unmet::Unmodified);
    }
    if !none_match_holds(&c.none, node) {
        return Err(Unmet::NoneMatch);
    }
    if !modified_holds(c.modified, node) {
        return Err(Unmet::Modified);
    }
    Ok(())
}

fn match_holds(tags: &Option<ETagList>, node: Option<(u64, u64)>) -> bool
    ensures { result ≡ match_holds tags.now node }
{
    match (tags, node) {
        (None, _) => true,
        (Some(_), None) => false,
        (Some(tags), Some((number, _))) => tags.matches(number),
    }
}

fn unmodified_holds(date: Option<u64>, node: Option<(u64, u64)>) -> bool
    ensures { result ≡ unmodified_holds date node }
{
    match (date, node) {
        (Some(date), Some((_, moment))) => moment / 1000 <= date,
        _ => true,
    }
}

fn none_match_holds(tags: &Option<ETagList>, node: Option<(u64, u64)>) -> bool
    ensures { result ≡ none_match_holds tags.now node }
{
    match (tags, node) {
        (Some(tags), Some((number, _))) => !tags.matches(number),
        _ => true,
    }
}

fn modified_holds(date: Option<u64>, node: Option<(u64, u64)>) -> bool
    ensures { result ≡ modified_holds date node }
{
    match (date, node) {
        (Some(date), Some((_, moment))) => moment / 1000 > date,
        _ => true,
    }
}
