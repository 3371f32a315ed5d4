// The values of requests in words, each with a comma before it; nothing where there is none.
use super::say::{say, say_number};
use acl_text::{ModeBits, Perm, Scope, Who};
use head_text::Props;
use lease_state::{AppendLease, LeaseAction};
use path_text::{Path, write_path};
use std::alloc::{AllocError, Global};

/// Appends a word and bytes; nothing where there are no bytes.
pub fn say_word(word: &str, bytes: &[u8], out: &mut Vec<u8>) -> Result<(), AllocError> {
    if bytes.is_empty() {
        return Ok(());
    }
    say(out, word)?;
    out.extend_from_slice(bytes)
}

/// Appends a word and a path.
pub fn say_path(word: &str, path: &Path, out: &mut Vec<u8>) -> Result<(), AllocError> {
    say(out, word)?;
    write_path(path, out)
}

/// Appends the names and the values as bytes.
pub fn say_props(props: Option<&Props>, out: &mut Vec<u8>) -> Result<(), AllocError> {
    match props {
        Some(props) => say_pairs(props.pairs(), out),
        None => Ok(()),
    }
}

fn say_pairs(pairs: &[(Vec<u8>, Vec<u8>)], out: &mut Vec<u8>) -> Result<(), AllocError> {
    say(out, ", properties:")?;
    for pair in pairs {
        say(out, " ")?;
        out.extend_from_slice(pair.0.as_slice())?;
        say(out, "=")?;
        out.extend_from_slice(pair.1.as_slice())?;
    }
    Ok(())
}

/// Appends four octal digits, the sticky bit first.
pub fn say_mode(word: &str, mode: Option<&ModeBits>, out: &mut Vec<u8>) -> Result<(), AllocError> {
    match mode {
        Some(mode) => say_word(word, &digits_of(mode), out),
        None => Ok(()),
    }
}

fn digits_of(mode: &ModeBits) -> [u8; 4] {
    let first = if mode.sticky { b'1' } else { b'0' };
    [
        first,
        digit_of(mode.owner),
        digit_of(mode.group),
        digit_of(mode.other),
    ]
}

fn digit_of(bits: Perm) -> u8 {
    bits.bits().saturating_add(b'0')
}

/// Appends entries of access control lists in their order.
pub fn say_acl(entries: &[(Scope, Who, Perm)], out: &mut Vec<u8>) -> Result<(), AllocError> {
    say(out, ", list:")?;
    for entry in entries {
        say_who(entry.0, &entry.1, out)?;
        say_word(":", &entry.2.text(), out)?;
    }
    Ok(())
}

/// Appends whom items of a list of entries to remove name, in their order.
pub fn say_items(items: &[(Scope, Who)], out: &mut Vec<u8>) -> Result<(), AllocError> {
    say(out, ", list:")?;
    for item in items {
        say_who(item.0, &item.1, out)?;
    }
    Ok(())
}

fn say_who(scope: Scope, who: &Who, out: &mut Vec<u8>) -> Result<(), AllocError> {
    say(
        out,
        match scope {
            Scope::Access => " ",
            Scope::Default => " default:",
        },
    )?;
    let (word, id) = word_of(who);
    say(out, word)?;
    out.extend_from_slice(id)
}

fn word_of(who: &Who) -> (&'static str, &[u8]) {
    match who {
        Who::Owner => ("user:", b""),
        Who::User(id) => ("user:", id.bytes()),
        Who::OwningGroup => ("group:", b""),
        Who::Group(id) => ("group:", id.bytes()),
        Who::Mask => ("mask:", b""),
        Who::Other => ("other:", b""),
    }
}

/// Appends an action on a lease. Ids are hexadecimal digits.
pub fn say_lease_action(
    alloc: Global,
    action: &LeaseAction,
    out: &mut Vec<u8>,
) -> Result<(), AllocError> {
    match action {
        LeaseAction::Acquire { proposed, secs } => {
            say_acquire(alloc, ", acquire", *proposed, *secs, out)
        }
        LeaseAction::Renew { given } => say_ids(alloc, ", renew", *given, None, out),
        LeaseAction::Change { given, proposed } => {
            say_ids(alloc, ", change", *given, Some(*proposed), out)
        }
        LeaseAction::Release { given } => say_ids(alloc, ", release", *given, None, out),
        LeaseAction::Break { period } => say_break(alloc, *period, out),
    }
}

/// Appends what an append does with a lease.
pub fn say_append(
    alloc: Global,
    action: &AppendLease,
    out: &mut Vec<u8>,
) -> Result<(), AllocError> {
    match action {
        AppendLease::Plain => Ok(()),
        AppendLease::Acquire { proposed, secs } => {
            say_acquire(alloc, ", acquire", *proposed, *secs, out)
        }
        AppendLease::AutoRenew => say(out, ", auto-renew"),
        AppendLease::Release => say(out, ", release"),
        AppendLease::AcquireRelease { proposed, secs } => {
            say_acquire(alloc, ", acquire-release", *proposed, *secs, out)
        }
    }
}

fn say_acquire(
    alloc: Global,
    word: &str,
    id: u128,
    secs: Option<u8>,
    out: &mut Vec<u8>,
) -> Result<(), AllocError> {
    say_ids(alloc, word, id, None, out)?;
    say(out, " for ")?;
    match secs {
        Some(secs) => say_number(alloc, out, Some(u64::from(secs))),
        None => say(out, "ever"),
    }
}

fn say_ids(
    alloc: Global,
    word: &str,
    id: u128,
    new: Option<u128>,
    out: &mut Vec<u8>,
) -> Result<(), AllocError> {
    match new {
        Some(new) => say(out, format!(in alloc; "{word} {id:x} to {new:x}")?.as_str()),
        None => say(out, format!(in alloc; "{word} {id:x}")?.as_str()),
    }
}

fn say_break(alloc: Global, period: Option<u8>, out: &mut Vec<u8>) -> Result<(), AllocError> {
    say(out, ", break")?;
    match period {
        Some(period) => {
            say(out, " in ")?;
            say_number(alloc, out, Some(u64::from(period)))
        }
        None => Ok(()),
    }
}
