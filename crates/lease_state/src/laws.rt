//! What the table of leases keeps, in plain words. Each law is the contract of a function that does nothing, and
//! speaks of every lease, every moment and every list of calls.

ghost use Rattle.std.specs.Prelude.{◌≡◌, ◌⊎◌, ◌↔◌, ℕ, ◌≤◌, Option, Some, None, Ok, Err, IsOk, IsOkAnd, IsSome};
ghost use Rattle.lease_state.specs.LeaseTable.{lease_state, lease_act, lease_may_write, lease_after_write, kept_id, kept_secs, kept_end, leased_from};
ghost use Rattle.lease_state.specs.LeaseFaults.{Holds};
ghost use Rattle.lease_state.specs.LeaseAppends.{lease_act_append};
ghost use Rattle.lease_state.specs.LeaseLaws.{WritePasses, IsNoReleaseOrBreak, IsKeepingAction, IsKeptSinceAcquire, IsLeased, EndsNoLater};
ghost use Rattle.lease_state.specs.declared.lease.Lease.{Lease};
ghost use Rattle.lease_state.specs.declared.lease.Lease.TheVariants as lease;
ghost use Rattle.lease_state.specs.declared.lease.State.TheVariants as state;
ghost use Rattle.lease_state.specs.declared.lease.LeaseAction.TheVariants.{Acquire, Renew, Change, Release, Break};
ghost use Rattle.lease_state.specs.declared.lease.AppendLease.TheVariants as append;
ghost use Rattle.lease_state.specs.declared.lease.LeaseFault.TheVariants.{LeaseIdMissing};

/// After an acquire that passed, and any actions but release and break and any plain writes, whether they passed or not and whatever their
/// moments, a write without an id passes exactly at a moment not below the end of the lease that is kept then, and
/// never where that lease is infinite. The lease is leased, unless a write after its end took it away; then each write
/// without an id passes.
pub fn an_acquired_lease_keeps_others_out()
    ensures leased { (kept : Lease) → IsKeptSinceAcquire IsKeepingAction kept → IsLeased kept }
    ensures leased_or_gone { (kept : Lease) → IsKeptSinceAcquire IsNoReleaseOrBreak kept →
        IsLeased kept ⊎ (kept ≡ lease.Available) }
    ensures until_its_end { (kept : Lease) (id secs until now : ℕ) →
        IsKeptSinceAcquire IsNoReleaseOrBreak kept → kept ≡ lease.Leased id (Some secs) until →
        (WritePasses kept None now ↔ (until ≤ now)) }
    ensures always_where_infinite { (kept : Lease) (id until now : ℕ) →
        IsKeptSinceAcquire IsNoReleaseOrBreak kept → kept ≡ lease.Leased id None until →
        lease_may_write kept None now ≡ Err LeaseIdMissing }
    ensures not_once_gone { (kept : Lease) (now : ℕ) → IsKeptSinceAcquire IsNoReleaseOrBreak kept →
        kept ≡ lease.Available → WritePasses kept None now }
{}

/// In the states leased and breaking a write passes exactly with the id that is kept then.
pub fn a_holding_lease_lets_its_id_write()
    ensures { (l : Lease) (given : Option ℕ) (now : ℕ) → Holds l now →
        (WritePasses l given now ↔ (given ≡ Some (kept_id l))) }
{}

/// What an action that passes leaves: an acquire the new lease; a renewal the lease under its id, for its duration from
/// the moment on; a change the lease under the proposed id, with its duration and its end; and a release none.
pub fn what_an_action_leaves()
    ensures acquired { (l next : Lease) (proposed : ℕ) (secs : Option ℕ) (now : ℕ) →
        lease_act l (Acquire proposed secs) now ≡ Ok next → next ≡ leased_from proposed secs now }
    ensures renewed { (l next : Lease) (given now : ℕ) →
        lease_act l (Renew given) now ≡ Ok next → next ≡ leased_from (kept_id l) (kept_secs l) now }
    ensures changed { (l next : Lease) (given proposed now : ℕ) →
        lease_act l (Change given proposed) now ≡ Ok next → next ≡ lease.Leased proposed (kept_secs l) (kept_end l) }
    ensures released { (l next : Lease) (given now : ℕ) →
        lease_act l (Release given) now ≡ Ok next → next ≡ lease.Available }
{}

/// The first break of a lease with an end passes, keeps its id, and never moves the end later: at each moment at which
/// the lease would have expired without it, it is broken with it.
pub fn a_first_break_comes_no_later()
    ensures end { (l : Lease) (period : Option ℕ) (now : ℕ) → lease_state l now ≡ state.Leased →
        IsSome (kept_secs l) → IsOkAnd (lease_act l (Break period) now) (EndsNoLater l) }
    ensures state { (l next : Lease) (period : Option ℕ) (now moment : ℕ) → lease_state l now ≡ state.Leased →
        lease_act l (Break period) now ≡ Ok next → lease_state l moment ≡ state.Expired →
        lease_state next moment ≡ state.Broken }
{}

/// A break of a lease that is breaking at the moment passes, keeps its id, and never moves its end later: at each
/// moment at which the lease would be broken without it, it is broken with it.
pub fn a_second_break_comes_no_later()
    ensures end { (l : Lease) (period : Option ℕ) (now : ℕ) → lease_state l now ≡ state.Breaking →
        IsOkAnd (lease_act l (Break period) now) (EndsNoLater l) }
    ensures state { (l next : Lease) (period : Option ℕ) (now moment : ℕ) → lease_state l now ≡ state.Breaking →
        lease_act l (Break period) now ≡ Ok next → lease_state l moment ≡ state.Broken →
        lease_state next moment ≡ state.Broken }
{}

/// A lease that has expired takes any new acquire, whatever the id and the duration.
pub fn an_expired_lease_can_be_acquired()
    ensures { (l : Lease) (proposed : ℕ) (secs : Option ℕ) (now : ℕ) → lease_state l now ≡ state.Expired →
        lease_act l (Acquire proposed secs) now ≡ Ok (leased_from proposed secs now) }
{}

/// A write that passed takes an expired lease away and leaves a holding one as it is, and whoever may write from then on
/// may write as if it had not passed.
pub fn a_write_lets_the_same_write_later()
    ensures expired { (l : Lease) (now : ℕ) → lease_state l now ≡ state.Expired →
        lease_after_write l now ≡ lease.Available }
    ensures holding { (l : Lease) (now : ℕ) → Holds l now → lease_after_write l now ≡ l }
    ensures later { (l : Lease) (given : Option ℕ) (now moment : ℕ) → now ≤ moment →
        lease_may_write (lease_after_write l now) given moment ≡ lease_may_write l given moment }
{}

/// An append that acquires and releases passes exactly where an acquire does, and leaves no lease, even where one with
/// the same id held before.
pub fn an_append_that_gives_its_lease_back_leaves_none()
    ensures passes { (l : Lease) (proposed : ℕ) (secs given : Option ℕ) (now : ℕ) →
        (lease_act_append l (append.AcquireRelease proposed secs) given now ≡ Ok lease.Available)
        ↔ IsOk (lease_act l (Acquire proposed secs) now) }
    ensures held { (l : Lease) (secs given : Option ℕ) (now : ℕ) → lease_state l now ≡ state.Leased →
        lease_act_append l (append.AcquireRelease (kept_id l) secs) given now ≡ Ok lease.Available }
{}
