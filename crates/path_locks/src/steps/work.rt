ghost use Rattle.std.specs.Prelude.{◌≡◌, ◌<◌, IfOk, Option, Some, length, slice_get};
ghost use Rattle.path_locks.specs.Working.{IsReady, AreReady, worked, IsChangedAt, AreChanged, AreSameParts};

use super::stripe::{pick, put};
use lock_core::Parted;
use std::alloc::{AllocError, Global};

/// Makes the work ready in the part that is in a place, if there is one.
fn reserve_at<P: Parted>(
    alloc: Global,
    parts: &mut Vec<Option<P::Part>>,
    at: usize,
    work: &P::Work,
) -> Result<(), AllocError>
    requires place { at < length parts.old.items }
    ensures changed { IsChangedAt P.bare (λ q. q) at parts.old.items parts.new.items }
    ensures ready { IfOk result (λ _. (q : Option P.Part) × (slice_get parts.new.items at ≡ Some q) × IsReady P.ready work.now q) }
{
    if parts[at].is_none() {
        return Ok(());
    }
    match pick(parts, at) {
        None => Ok(()),
        Some(mut part) => {
            let done = P::reserve(alloc, &mut part, work);
            put(parts, at, part);
            done
        }
    }
}

/// Makes the work ready in each part of a list of places.
pub(crate) fn reserve_all<P: Parted>(
    parts: &mut Vec<Option<P::Part>>,
    work: &P::Work,
) -> Result<(), AllocError>
    ensures same { AreSameParts P.bare parts.old.items parts.new.items }
    ensures ready { IfOk result (λ _. AreReady P.ready work.now parts.new.items) }
{
    let alloc = *parts.allocator();
    let count = parts.len();
    for at in 0..count {
        reserve_at::<P>(alloc, parts, at, work)?;
    }
    Ok(())
}

/// Does the work, which was reserved, in the part that is in a place, if there is one.
fn apply_at<P: Parted>(parts: &mut Vec<Option<P::Part>>, at: usize, work: &P::Work, number: u64)
    requires place { at < length parts.old.items }
    requires ready { (q : Option P.Part) × (slice_get parts.old.items at ≡ Some q) × IsReady P.ready work.now q }
    ensures { IsChangedAt P.bare (worked P.applied work.now number) at parts.old.items parts.new.items }
{
    if parts[at].is_none() {
        return;
    }
    if let Some(mut part) = pick(parts, at) {
        P::apply(&mut part, work, number);
        put(parts, at, part);
    }
}

/// Does the work, which was reserved, in each part of a list of places.
pub(crate) fn apply_all<P: Parted>(parts: &mut Vec<Option<P::Part>>, work: &P::Work, number: u64)
    requires ready { AreReady P.ready work.now parts.old.items }
    ensures { AreChanged P.bare (worked P.applied work.now number) parts.old.items parts.new.items }
{
    let count = parts.len();
    for at in 0..count {
        apply_at::<P>(parts, at, work, number);
    }
}
