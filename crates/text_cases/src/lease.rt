// Tables of lease ids, and of what actions and writes make of leases.
use super::say::say;
use lease_state::{
    AppendLease, LAST_MOMENT, Lease, LeaseAction, LeaseFault, act, act_append, after_write,
    may_write, read_lease_id, state_at, write_lease_id,
};
use std::alloc::{AllocError, Global};

/// Appends the answer, and answers whether there is a table of this name.
pub fn answer(
    alloc: Global,
    name: &str,
    first: &[u8],
    second: &[u8],
    out: &mut Vec<u8>,
) -> Result<bool, AllocError> {
    match name {
        "lease_ids" => id(alloc, first, out)?,
        "written_lease_ids" => written_id(first, out)?,
        "lease_steps" => step(alloc, first, second, out)?,
        "lease_appends" => append(alloc, first, second, out)?,
        "lease_messages" => message(alloc, first, out)?,
        _ => return Ok(false),
    }
    Ok(true)
}

// The id as a number in hexadecimal digits.
fn id(alloc: Global, text: &[u8], out: &mut Vec<u8>) -> Result<(), AllocError> {
    match read_lease_id(text) {
        Some(id) => say(out, format!(in alloc; "{id:x}")?.as_str()),
        None => say(out, "none"),
    }
}

// An id as it is printed.
fn written_id(text: &[u8], out: &mut Vec<u8>) -> Result<(), AllocError> {
    match read_lease_id(text) {
        Some(id) => {
            let mut written = [0; 36];
            write_lease_id(id, &mut written);
            out.extend_from_slice(&written)
        }
        None => say(out, "none"),
    }
}

// A lease, and behind its moment in milliseconds since 1970 what is done: the lease then, its state, or the fault. Ids are decimal
// numbers.
fn step(alloc: Global, lease: &[u8], text: &[u8], out: &mut Vec<u8>) -> Result<(), AllocError> {
    match (lease_of(lease), step_of(text)) {
        (Some(lease), Some((moment, "state", _))) => say_state(alloc, &lease, moment, out),
        (Some(lease), Some((moment, word, rest))) => {
            say_after(alloc, after(&lease, moment, word, rest), out)
        }
        _ => say(out, "no step"),
    }
}

// The same of an append, with `by` and an id behind it where one is given.
fn append(alloc: Global, lease: &[u8], text: &[u8], out: &mut Vec<u8>) -> Result<(), AllocError> {
    match (lease_of(lease), step_of(text)) {
        (Some(lease), Some((moment, word, rest))) => {
            say_after(alloc, after_append(&lease, moment, word, rest), out)
        }
        _ => say(out, "no step"),
    }
}

fn say_after(
    alloc: Global,
    after: Option<Result<Lease, LeaseFault>>,
    out: &mut Vec<u8>,
) -> Result<(), AllocError> {
    match after {
        Some(Ok(lease)) => say_lease(alloc, &lease, out),
        Some(Err(fault)) => say(out, format!(in alloc; "{fault:?}")?.as_str()),
        None => say(out, "no step"),
    }
}

// What an append leaves, at the latest at the last moment; none where it lacks an id that it needs.
fn after_append(
    lease: &Lease,
    moment: u64,
    word: &str,
    rest: &str,
) -> Option<Result<Lease, LeaseFault>> {
    let (rest, given) = match rest.strip_prefix("by ") {
        Some(given) => ("", given),
        None => rest.split_once(" by ").unwrap_or((rest, "")),
    };
    let action = append_of(word, rest)?;
    let now = moment.min(LAST_MOMENT);
    match given.parse().ok() {
        Some(id) => Some(act_append(lease, &action, Some(id), now)),
        None => after_append_without_id(lease, action, now),
    }
}

fn after_append_without_id(
    lease: &Lease,
    action: AppendLease,
    moment: u64,
) -> Option<Result<Lease, LeaseFault>> {
    let now = moment.min(LAST_MOMENT);
    match action {
        AppendLease::AutoRenew | AppendLease::Release => None,
        AppendLease::Plain => Some(act_append(lease, &AppendLease::Plain, None, now)),
        AppendLease::Acquire { proposed, secs } => {
            let action = AppendLease::Acquire { proposed, secs };
            Some(act_append(lease, &action, None, now))
        }
        AppendLease::AcquireRelease { proposed, secs } => {
            let action = AppendLease::AcquireRelease { proposed, secs };
            Some(act_append(lease, &action, None, now))
        }
    }
}

fn append_of(word: &str, rest: &str) -> Option<AppendLease> {
    let (first, second) = rest.split_once(' ').unwrap_or((rest, ""));
    let secs = second.parse().ok();
    match word {
        "plain" => Some(AppendLease::Plain),
        "acquire" => Some(AppendLease::Acquire {
            proposed: first.parse().ok()?,
            secs,
        }),
        "auto-renew" => Some(AppendLease::AutoRenew),
        "release" => Some(AppendLease::Release),
        "acquire-release" => Some(AppendLease::AcquireRelease {
            proposed: first.parse().ok()?,
            secs,
        }),
        _ => None,
    }
}

fn step_of(text: &[u8]) -> Option<(u64, &str, &str)> {
    let (moment, rest) = str::from_utf8(text).ok()?.split_once(' ')?;
    let (word, rest) = rest.split_once(' ').unwrap_or((rest, ""));
    Some((moment.parse().ok()?, word, rest))
}

fn say_state(
    alloc: Global,
    lease: &Lease,
    moment: u64,
    out: &mut Vec<u8>,
) -> Result<(), AllocError> {
    let state = state_at(lease, moment);
    say(out, format!(in alloc; "{state:?}")?.as_str())
}

// What a write or an action leaves, at the latest at the last moment.
fn after(lease: &Lease, moment: u64, word: &str, rest: &str) -> Option<Result<Lease, LeaseFault>> {
    if word == "write" {
        return Some(after_writing(lease, rest.parse().ok(), moment));
    }
    let action = action_of(word, rest)?;
    Some(act(lease, &action, moment.min(LAST_MOMENT)))
}

fn after_writing(lease: &Lease, given: Option<u128>, moment: u64) -> Result<Lease, LeaseFault> {
    match may_write(lease, given, moment) {
        Ok(()) => Ok(after_write(lease, moment)),
        Err(fault) => Err(fault),
    }
}

fn action_of(word: &str, rest: &str) -> Option<LeaseAction> {
    let (first, second) = rest.split_once(' ').unwrap_or((rest, ""));
    match word {
        "acquire" => Some(LeaseAction::Acquire {
            proposed: first.parse().ok()?,
            secs: second.parse().ok(),
        }),
        "renew" => Some(LeaseAction::Renew {
            given: first.parse().ok()?,
        }),
        "change" => Some(LeaseAction::Change {
            given: first.parse().ok()?,
            proposed: second.parse().ok()?,
        }),
        "release" => Some(LeaseAction::Release {
            given: first.parse().ok()?,
        }),
        "break" => Some(LeaseAction::Break {
            period: first.parse().ok(),
        }),
        _ => None,
    }
}

fn lease_of(text: &[u8]) -> Option<Lease> {
    let mut words = str::from_utf8(text).ok()?.split_whitespace();
    match words.next()? {
        "available" => Some(Lease::Available),
        "leased" => Some(Lease::Leased {
            id: words.next()?.parse().ok()?,
            secs: words.next()?.parse().ok(),
            until: words.next()?.parse().ok()?,
        }),
        "breaking" => Some(Lease::Breaking {
            id: words.next()?.parse().ok()?,
            until: words.next()?.parse().ok()?,
        }),
        "broken" => Some(Lease::Broken {
            id: words.next()?.parse().ok()?,
        }),
        _ => None,
    }
}

fn say_lease(alloc: Global, lease: &Lease, out: &mut Vec<u8>) -> Result<(), AllocError> {
    let text = match lease {
        Lease::Available => return say(out, "available"),
        Lease::Leased { id, secs, until } => match secs {
            Some(secs) => format!(in alloc; "leased {id} {secs} {until}")?,
            None => format!(in alloc; "leased {id} infinite {until}")?,
        },
        Lease::Breaking { id, until } => format!(in alloc; "breaking {id} {until}")?,
        Lease::Broken { id } => format!(in alloc; "broken {id}")?,
    };
    say(out, text.as_str())
}

// The message of a fault.
fn message(alloc: Global, name: &[u8], out: &mut Vec<u8>) -> Result<(), AllocError> {
    match str::from_utf8(name).ok().and_then(fault_of) {
        Some(fault) => say(out, format!(in alloc; "{fault}")?.as_str()),
        None => say(out, "no fault"),
    }
}

fn fault_of(name: &str) -> Option<LeaseFault> {
    match name {
        "LeaseIdMissing" => Some(LeaseFault::LeaseIdMissing),
        "LeaseIdMismatchWithBlobOperation" => Some(LeaseFault::LeaseIdMismatchWithBlobOperation),
        "LeaseLost" => Some(LeaseFault::LeaseLost),
        "LeaseAlreadyPresent" => Some(LeaseFault::LeaseAlreadyPresent),
        "LeaseIdMismatchWithLeaseOperation" => Some(LeaseFault::LeaseIdMismatchWithLeaseOperation),
        "LeaseNotPresentWithLeaseOperation" => Some(LeaseFault::LeaseNotPresentWithLeaseOperation),
        "LeaseIsBreakingAndCannotBeAcquired" => {
            Some(LeaseFault::LeaseIsBreakingAndCannotBeAcquired)
        }
        "LeaseIsBreakingAndCannotBeChanged" => Some(LeaseFault::LeaseIsBreakingAndCannotBeChanged),
        "LeaseIsBrokenAndCannotBeRenewed" => Some(LeaseFault::LeaseIsBrokenAndCannotBeRenewed),
        _ => None,
    }
}
