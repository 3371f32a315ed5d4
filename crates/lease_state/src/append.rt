ghost use Rattle.std.specs.Prelude.{◌≡◌, ◌↔◌, ◌≤◌, Err, IfOk, IsSome};
ghost use Rattle.lease_state.specs.LeaseAppends.{NeedsId, lease_act_append, left_by_append, IsAppendWithoutId, IsAppendOfOther, IsAppendOfNone, IsTakenByOther, IsTakenWhileBreaking, IsRenewedWhileBreaking};

use crate::lease::{AppendLease, LAST_MOMENT, Lease, LeaseAction, LeaseFault};
use crate::table::{act, after_write, may_write};

/// The lease of a file after an append at a moment, in milliseconds since 1970, with the id that the caller gives or
/// without one.
///
/// A plain append is a write, as `may_write` and `after_write` have it. One that acquires takes a lease by the rules of
/// `act`, and the given id isn't looked at; where it also releases, no lease is left, even if one with the same id held
/// before. One that renews or releases is a write under the given id, which it needs, and then that action. `now` is at
/// most `LAST_MOMENT`, as for `act`.
///
/// The faults are `LeaseIdMissing`, `LeaseIdMismatchWithBlobOperation` and `LeaseLost` of a write, `LeaseAlreadyPresent`
/// and `LeaseIsBreakingAndCannotBeAcquired` of an acquire, and `LeaseIsBrokenAndCannotBeRenewed` of a renewal of a lease
/// that is breaking, each exactly where the clause of its name says. No other fault comes.
pub fn act_append(
    lease: &Lease,
    action: &AppendLease,
    given: Option<u128>,
    now: u64,
) -> Result<Lease, LeaseFault>
    requires moment { now ≤ LAST_MOMENT }
    requires id { NeedsId action.now → IsSome given }
    ensures cell { result ≡ lease_act_append lease.now action.now given now }
    ensures left { IfOk result (λ next. next ≡ left_by_append lease.now action.now now) }
    ensures missing { (result ≡ Err LeaseFault.LeaseIdMissing)
        ↔ IsAppendWithoutId lease.now action.now given now }
    ensures mismatch { (result ≡ Err LeaseFault.LeaseIdMismatchWithBlobOperation)
        ↔ IsAppendOfOther lease.now action.now given now }
    ensures lost { (result ≡ Err LeaseFault.LeaseLost) ↔ IsAppendOfNone lease.now action.now given now }
    ensures already_present { (result ≡ Err LeaseFault.LeaseAlreadyPresent)
        ↔ IsTakenByOther lease.now action.now now }
    ensures acquired_while_breaking { (result ≡ Err LeaseFault.LeaseIsBreakingAndCannotBeAcquired)
        ↔ IsTakenWhileBreaking lease.now action.now now }
    ensures renewed_while_breaking { (result ≡ Err LeaseFault.LeaseIsBrokenAndCannotBeRenewed)
        ↔ IsRenewedWhileBreaking lease.now action.now given now }
    ensures not_mismatched { ¬ (result ≡ Err LeaseFault.LeaseIdMismatchWithLeaseOperation) }
    ensures not_absent { ¬ (result ≡ Err LeaseFault.LeaseNotPresentWithLeaseOperation) }
    ensures not_changed { ¬ (result ≡ Err LeaseFault.LeaseIsBreakingAndCannotBeChanged) }
{
    match (*action, given) {
        (AppendLease::Plain, _) => {
            may_write(lease, given, now)?;
            Ok(after_write(lease, now))
        }
        (AppendLease::Acquire { proposed, secs }, _) => {
            act(lease, &LeaseAction::Acquire { proposed, secs }, now)
        }
        (AppendLease::AcquireRelease { proposed, secs }, _) => {
            act(lease, &LeaseAction::Acquire { proposed, secs }, now)?;
            Ok(Lease::Available)
        }
        (AppendLease::AutoRenew, Some(id)) => {
            may_write(lease, given, now)?;
            act(lease, &LeaseAction::Renew { given: id }, now)
        }
        (AppendLease::Release, Some(id)) => {
            may_write(lease, given, now)?;
            act(lease, &LeaseAction::Release { given: id }, now)
        }
        (AppendLease::AutoRenew | AppendLease::Release, None) => unreachable!(),
    }
}
