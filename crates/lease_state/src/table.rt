ghost use Rattle.std.specs.Prelude.{◌≡◌, ◌≢◌, ◌↔◌, ◌≤◌, None, Err, IsSome, IsSomeAnd};
ghost use Rattle.lease_state.specs.LeaseFaults.{Holds, IsAlreadyPresent, IsAcquiredWhileBreaking, IsChangedWhileBreaking, IsRenewedOnceBroken, IsNotPresent, IsIdMismatch};
ghost use Rattle.lease_state.specs.LeaseTable.{kept_id, kept_secs, kept_end, end_from, leased_from, time_to_break, breaking_for, end_to_break, breaking_until, acquired, renewed, changed, released, broken, lease_state, lease_act, lease_may_write, lease_after_write};

use crate::lease::{LAST_MOMENT, Lease, LeaseAction, LeaseFault, State};

/// The state of a lease at a moment, in milliseconds since 1970. No bound on `now` is needed.
pub fn state_at(lease: &Lease, now: u64) -> State
    ensures { result ≡ lease_state lease.now now }
{
    match *lease {
        Lease::Available => State::Available,
        Lease::Leased { secs: None, .. } => State::Leased,
        Lease::Leased { until, .. } if until <= now => State::Expired,
        Lease::Leased { .. } => State::Leased,
        Lease::Breaking { until, .. } if until <= now => State::Broken,
        Lease::Breaking { .. } => State::Breaking,
        Lease::Broken { .. } => State::Broken,
    }
}

/// The lease after an action at a moment, in milliseconds since 1970. Moments need not rise from call to call.
///
/// A new or renewed lease of `secs` seconds ends at `now + 1000 * secs`, and one that is broken with a period at the
/// latest at `now + 1000 * period`. For these sums `now` is at most `LAST_MOMENT`, which the caller meets by taking its moments
/// from a clock in that range; the lease itself may have any end. Each fault comes exactly where the clause of its name
/// says.
pub fn act(lease: &Lease, action: &LeaseAction, now: u64) -> Result<Lease, LeaseFault>
    requires moment { now ≤ LAST_MOMENT }
    ensures cell { result ≡ lease_act lease.now action.now now }
    ensures already_present { (result ≡ Err LeaseFault.LeaseAlreadyPresent)
        ↔ IsAlreadyPresent lease.now action.now now }
    ensures acquired_while_breaking { (result ≡ Err LeaseFault.LeaseIsBreakingAndCannotBeAcquired)
        ↔ IsAcquiredWhileBreaking lease.now action.now now }
    ensures changed_while_breaking { (result ≡ Err LeaseFault.LeaseIsBreakingAndCannotBeChanged)
        ↔ IsChangedWhileBreaking lease.now action.now now }
    ensures renewed_once_broken { (result ≡ Err LeaseFault.LeaseIsBrokenAndCannotBeRenewed)
        ↔ IsRenewedOnceBroken lease.now action.now now }
    ensures not_present { (result ≡ Err LeaseFault.LeaseNotPresentWithLeaseOperation)
        ↔ IsNotPresent lease.now action.now now }
    ensures id_mismatch { (result ≡ Err LeaseFault.LeaseIdMismatchWithLeaseOperation)
        ↔ IsIdMismatch lease.now action.now now }
{
    match *action {
        LeaseAction::Acquire { proposed, secs } => acquire(lease, proposed, secs, now),
        LeaseAction::Renew { given } => renew(lease, given, now),
        LeaseAction::Change { given, proposed } => change(lease, given, proposed, now),
        LeaseAction::Release { given } => release(lease, given, now),
        LeaseAction::Break { period } => break_lease(lease, period, now),
    }
}

/// Whether a write passes at a moment, in milliseconds since 1970, with the id that the caller gives or without one.
/// No bound on `now` is needed.
///
/// The faults are `LeaseIdMissing` and `LeaseIdMismatchWithBlobOperation` while the lease holds, and `LeaseLost` for a
/// given id where none holds.
pub fn may_write(lease: &Lease, given: Option<u128>, now: u64) -> Result<(), LeaseFault>
    ensures cell { result ≡ lease_may_write lease.now given now }
    ensures missing { (result ≡ Err LeaseFault.LeaseIdMissing) ↔ ((given ≡ None) × Holds lease.now now) }
    ensures mismatch { (result ≡ Err LeaseFault.LeaseIdMismatchWithBlobOperation)
        ↔ (IsSomeAnd given (λ g. g ≢ kept_id lease.now) × Holds lease.now now) }
    ensures lost { (result ≡ Err LeaseFault.LeaseLost) ↔ (IsSome given × (¬ Holds lease.now now)) }
{
    match (state_at(lease, now), given) {
        (State::Leased | State::Breaking, None) => Err(LeaseFault::LeaseIdMissing),
        (State::Leased | State::Breaking, Some(id)) => {
            if id == lease.kept_id() {
                Ok(())
            } else {
                Err(LeaseFault::LeaseIdMismatchWithBlobOperation)
            }
        }
        (State::Available | State::Expired | State::Broken, None) => Ok(()),
        (State::Available | State::Expired | State::Broken, Some(_)) => Err(LeaseFault::LeaseLost),
    }
}

/// What a write that passed at a moment, in milliseconds since 1970, leaves of a lease: one that has expired is gone,
/// and any other stays as it is. No bound on `now` is needed.
pub fn after_write(lease: &Lease, now: u64) -> Lease
    ensures { result ≡ lease_after_write lease.now now }
{
    match state_at(lease, now) {
        State::Expired => Lease::Available,
        State::Available | State::Leased | State::Breaking | State::Broken => *lease,
    }
}

// A lease that begins now.
fn lease_from(id: u128, secs: Option<u8>, now: u64) -> Lease
    requires { now ≤ LAST_MOMENT }
    ensures { result ≡ leased_from id secs now }
{
    let until = match secs {
        Some(secs) => now + 1000 * u64::from(secs),
        None => 0,
    };
    Lease::Leased { id, secs, until }
}

fn acquire(lease: &Lease, proposed: u128, secs: Option<u8>, now: u64) -> Result<Lease, LeaseFault>
    requires { now ≤ LAST_MOMENT }
    ensures { result ≡ acquired (lease_state lease.now now) (kept_id lease.now) proposed secs now }
{
    let is_kept = proposed == lease.kept_id();
    match state_at(lease, now) {
        State::Breaking if is_kept => Err(LeaseFault::LeaseIsBreakingAndCannotBeAcquired),
        State::Breaking => Err(LeaseFault::LeaseAlreadyPresent),
        State::Leased if !is_kept => Err(LeaseFault::LeaseAlreadyPresent),
        State::Available | State::Leased | State::Expired | State::Broken => {
            Ok(lease_from(proposed, secs, now))
        }
    }
}

fn renew(lease: &Lease, given: u128, now: u64) -> Result<Lease, LeaseFault>
    requires { now ≤ LAST_MOMENT }
    ensures { result ≡ renewed (lease_state lease.now now) (kept_id lease.now) given (kept_secs lease.now) now }
{
    let kept = lease.kept_id();
    match state_at(lease, now) {
        State::Available => Err(LeaseFault::LeaseNotPresentWithLeaseOperation),
        _ if given != kept => Err(LeaseFault::LeaseIdMismatchWithLeaseOperation),
        State::Leased | State::Expired => Ok(lease_from(kept, lease.kept_secs(), now)),
        State::Breaking | State::Broken => Err(LeaseFault::LeaseIsBrokenAndCannotBeRenewed),
    }
}

fn change(lease: &Lease, given: u128, proposed: u128, now: u64) -> Result<Lease, LeaseFault>
    ensures { result ≡ changed (lease_state lease.now now) (kept_id lease.now) given proposed (kept_secs lease.now) (kept_end lease.now) }
{
    let kept = lease.kept_id();
    match state_at(lease, now) {
        State::Leased if given == kept || proposed == kept => Ok(Lease::Leased {
            id: proposed,
            secs: lease.kept_secs(),
            until: lease.kept_end(),
        }),
        State::Leased => Err(LeaseFault::LeaseIdMismatchWithLeaseOperation),
        State::Breaking if given == kept => Err(LeaseFault::LeaseIsBreakingAndCannotBeChanged),
        State::Breaking => Err(LeaseFault::LeaseIdMismatchWithLeaseOperation),
        State::Available | State::Expired | State::Broken => {
            Err(LeaseFault::LeaseNotPresentWithLeaseOperation)
        }
    }
}

fn release(lease: &Lease, given: u128, now: u64) -> Result<Lease, LeaseFault>
    ensures { result ≡ released (lease_state lease.now now) (kept_id lease.now) given }
{
    match state_at(lease, now) {
        State::Available => Err(LeaseFault::LeaseNotPresentWithLeaseOperation),
        _ if given == lease.kept_id() => Ok(Lease::Available),
        _ => Err(LeaseFault::LeaseIdMismatchWithLeaseOperation),
    }
}

fn break_lease(lease: &Lease, period: Option<u8>, now: u64) -> Result<Lease, LeaseFault>
    requires { now ≤ LAST_MOMENT }
    ensures { result ≡ broken (lease_state lease.now now) (kept_id lease.now) (kept_secs lease.now) (kept_end lease.now) period now }
{
    let id = lease.kept_id();
    match state_at(lease, now) {
        State::Available => Err(LeaseFault::LeaseNotPresentWithLeaseOperation),
        State::Leased => {
            let left = time_left(lease.kept_secs(), lease.kept_end(), period, now);
            if left == 0 {
                Ok(Lease::Broken { id })
            } else {
                Ok(Lease::Breaking {
                    id,
                    until: now + left,
                })
            }
        }
        State::Breaking => {
            let until = earlier_end(lease.kept_end(), period, now);
            if until <= now {
                Ok(Lease::Broken { id })
            } else {
                Ok(Lease::Breaking { id, until })
            }
        }
        State::Expired | State::Broken => Ok(Lease::Broken { id }),
    }
}

// How long a leased lease holds once it is broken, in milliseconds.
fn time_left(secs: Option<u8>, until: u64, period: Option<u8>, now: u64) -> u64
    ensures { result ≡ time_to_break secs until period now }
{
    let asked = period.map(|period| 1000 * u64::from(period));
    match (secs, asked) {
        (Some(_), Some(asked)) => until.saturating_sub(now).min(asked),
        (Some(_), None) => until.saturating_sub(now),
        (None, Some(asked)) => asked,
        (None, None) => 0,
    }
}

// The end of a breaking lease once it is broken again.
fn earlier_end(until: u64, period: Option<u8>, now: u64) -> u64
    requires { now ≤ LAST_MOMENT }
    ensures { result ≡ end_to_break until period now }
{
    match period {
        Some(period) => until.min(now + 1000 * u64::from(period)),
        None => until,
    }
}
