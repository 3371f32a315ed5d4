//! Path Lease, and what an append does with a lease. A missing header that has to be there is
//! `MissingRequiredHeader`, a bad one `InvalidHeaderValue`.

ghost use Rattle.std.specs.Prelude.{◌≡◌};
ghost use Rattle.std.specs.Option.{option_copied};
ghost use Rattle.op_decode.specs.Leases.{acquire_in, action_in, action_named, append_acquire_in};
ghost use Rattle.op_decode.specs.Leases.{append_acquire_release_in, append_action_in, append_named, append_release_in};
ghost use Rattle.op_decode.specs.Leases.{append_renew_in, break_in, change_in, duration_in, duration_of, given_id_in};
ghost use Rattle.op_decode.specs.Leases.{lease_of, period_in, proposed_id_in, release_in, releases, renew_in};
ghost use Rattle.op_decode.specs.Leases.{seconds_of, where_flushed};

use super::headers::header;
use super::values::needed_lease_id_in;
use head_text::read_dec;
use http_front::Raw;
use lease_state::{AppendLease, LeaseAction};
use namespace_model::{Code, Op};
use path_text::Path;

// A number of seconds from the least to the greatest one.
fn seconds_of(least: u8, most: u8, text: &[u8]) -> Result<u8, Code>
    ensures { result ≡ seconds_of least most text.now }
{
    match read_dec(text) {
        Some(secs) if u64::from(least) <= secs && secs <= u64::from(most) => Ok(secs as u8),
        _ => Err(Code::InvalidHeaderValue),
    }
}

// A duration in seconds: none of a lease without end.
#[tactic(auto, unfolding(crate::specs::Leases::duration_of))]
fn duration_of(text: &[u8]) -> Result<Option<u8>, Code>
    ensures { result ≡ duration_of text.now }
{
    if text == b"-1".as_slice() {
        return Ok(None);
    }
    Ok(Some(seconds_of(15, 60, text)?))
}

#[tactic(auto, unfolding(crate::specs::Leases::duration_in))]
fn duration_in(raw: &Raw) -> Result<Option<u8>, Code>
    ensures { result ≡ duration_in raw.now }
{
    match header(raw, b"x-ms-lease-duration") {
        Some(text) => duration_of(text),
        None => Err(Code::MissingRequiredHeader),
    }
}

// The seconds that a lease still holds when it is broken, where they are given.
#[tactic(auto, unfolding(crate::specs::Leases::period_in))]
fn period_in(raw: &Raw) -> Result<Option<u8>, Code>
    ensures { result ≡ period_in raw.now }
{
    match header(raw, b"x-ms-lease-break-period") {
        Some(text) => Ok(Some(seconds_of(0, 60, text)?)),
        None => Ok(None),
    }
}

fn given_id_in(raw: &Raw) -> Result<u128, Code>
    ensures { result ≡ given_id_in raw.now }
{
    needed_lease_id_in(b"x-ms-lease-id", raw)
}

fn proposed_id_in(raw: &Raw) -> Result<u128, Code>
    ensures { result ≡ proposed_id_in raw.now }
{
    needed_lease_id_in(b"x-ms-proposed-lease-id", raw)
}

#[tactic(auto, unfolding(crate::specs::Leases::acquire_in))]
fn acquire_in(raw: &Raw) -> Result<LeaseAction, Code>
    ensures { result ≡ acquire_in raw.now }
{
    let secs = duration_in(raw)?;
    let proposed = proposed_id_in(raw)?;
    Ok(LeaseAction::Acquire { proposed, secs })
}

#[tactic(auto, unfolding(crate::specs::Leases::renew_in))]
fn renew_in(raw: &Raw) -> Result<LeaseAction, Code>
    ensures { result ≡ renew_in raw.now }
{
    let given = given_id_in(raw)?;
    Ok(LeaseAction::Renew { given })
}

#[tactic(auto, unfolding(crate::specs::Leases::change_in))]
fn change_in(raw: &Raw) -> Result<LeaseAction, Code>
    ensures { result ≡ change_in raw.now }
{
    let given = given_id_in(raw)?;
    let proposed = proposed_id_in(raw)?;
    Ok(LeaseAction::Change { given, proposed })
}

#[tactic(auto, unfolding(crate::specs::Leases::release_in))]
fn release_in(raw: &Raw) -> Result<LeaseAction, Code>
    ensures { result ≡ release_in raw.now }
{
    let given = given_id_in(raw)?;
    Ok(LeaseAction::Release { given })
}

#[tactic(auto, unfolding(crate::specs::Leases::break_in))]
fn break_in(raw: &Raw) -> Result<LeaseAction, Code>
    ensures { result ≡ break_in raw.now }
{
    let period = period_in(raw)?;
    Ok(LeaseAction::Break { period })
}

#[tactic(auto, unfolding(crate::specs::Leases::action_named))]
fn action_named(text: &[u8], raw: &Raw) -> Result<LeaseAction, Code>
    ensures { result ≡ action_named text.now raw.now }
{
    if text == b"acquire".as_slice() {
        acquire_in(raw)
    } else if text == b"renew".as_slice() {
        renew_in(raw)
    } else if text == b"change".as_slice() {
        change_in(raw)
    } else if text == b"release".as_slice() {
        release_in(raw)
    } else if text == b"break".as_slice() {
        break_in(raw)
    } else {
        Err(Code::InvalidHeaderValue)
    }
}

#[tactic(auto, unfolding(crate::specs::Leases::action_in))]
fn action_in(raw: &Raw) -> Result<LeaseAction, Code>
    ensures { result ≡ action_in raw.now }
{
    match header(raw, b"x-ms-lease-action") {
        Some(text) => action_named(text, raw),
        None => Err(Code::MissingRequiredHeader),
    }
}

/// Path Lease: the lease action. Acquire needs a duration, -1 or 15 to 60 seconds, and then a proposed id; renew and
/// release need the lease id, and change needs it and then a proposed one; break takes a period of 0 to 60 seconds.
#[tactic(auto, unfolding(crate::specs::Leases::lease_of))]
pub fn lease_row(path: Path, raw: &Raw) -> Result<Op, Code>
    ensures { result ≡ lease_of path raw.now }
{
    let action = action_in(raw)?;
    Ok(Op::Lease { path, action })
}

#[tactic(auto, unfolding(crate::specs::Leases::append_acquire_in))]
fn append_acquire_in(raw: &Raw) -> Result<AppendLease, Code>
    ensures { result ≡ append_acquire_in raw.now }
{
    let secs = duration_in(raw)?;
    let proposed = proposed_id_in(raw)?;
    Ok(AppendLease::Acquire { proposed, secs })
}

#[tactic(auto, unfolding(crate::specs::Leases::append_renew_in))]
fn append_renew_in(raw: &Raw) -> Result<AppendLease, Code>
    ensures { result ≡ append_renew_in raw.now }
{
    let _given = given_id_in(raw)?;
    Ok(AppendLease::AutoRenew)
}

#[tactic(auto, unfolding(crate::specs::Leases::append_release_in))]
fn append_release_in(raw: &Raw) -> Result<AppendLease, Code>
    ensures { result ≡ append_release_in raw.now }
{
    let _given = given_id_in(raw)?;
    Ok(AppendLease::Release)
}

#[tactic(auto, unfolding(crate::specs::Leases::append_acquire_release_in))]
fn append_acquire_release_in(raw: &Raw) -> Result<AppendLease, Code>
    ensures { result ≡ append_acquire_release_in raw.now }
{
    let secs = duration_in(raw)?;
    let proposed = proposed_id_in(raw)?;
    Ok(AppendLease::AcquireRelease { proposed, secs })
}

#[tactic(auto, unfolding(crate::specs::Leases::append_named))]
fn append_named(text: &[u8], raw: &Raw) -> Result<AppendLease, Code>
    ensures { result ≡ append_named text.now raw.now }
{
    if text == b"acquire".as_slice() {
        append_acquire_in(raw)
    } else if text == b"auto-renew".as_slice() {
        append_renew_in(raw)
    } else if text == b"release".as_slice() {
        append_release_in(raw)
    } else if text == b"acquire-release".as_slice() {
        append_acquire_release_in(raw)
    } else {
        Err(Code::InvalidHeaderValue)
    }
}

/// What an append does with the lease: nothing where no action is given. Acquire and acquire-release need a duration,
/// -1 or 15 to 60 seconds, and then a proposed id; auto-renew and release need the lease id.
#[tactic(auto, unfolding(crate::specs::Leases::append_action_in))]
pub fn append_action_in(raw: &Raw) -> Result<AppendLease, Code>
    ensures { result ≡ append_action_in raw.now }
{
    match header(raw, b"x-ms-lease-action") {
        Some(text) => append_named(text, raw),
        None => Ok(AppendLease::Plain),
    }
}

fn releases(action: AppendLease) -> bool
    ensures { result ≡ releases action }
{
    match action {
        AppendLease::Plain | AppendLease::Acquire { .. } | AppendLease::AutoRenew => false,
        AppendLease::Release | AppendLease::AcquireRelease { .. } => true,
    }
}

/// The lease action of an append, where one that releases flushes. Another one is `InvalidInput`.
pub fn where_flushed(flush: bool, action: AppendLease) -> Result<AppendLease, Code>
    ensures { result ≡ where_flushed flush action }
{
    if releases(action) && !flush {
        Err(Code::InvalidInput)
    } else {
        Ok(action)
    }
}
