ghost use Rattle.std.specs.Prelude.{◌≡◌};
ghost use Rattle.lease_state.specs.LeaseTable.{kept_id, kept_secs, kept_end};

use thiserror::Error;

/// The greatest moment, in milliseconds since 1970: the last millisecond of the year 9999.
pub const LAST_MOMENT: u64 = 253_402_300_799_999;

/// The lease of a file or a directory, as it is kept. What it means at a moment is `state_at`.
#[derive(Clone, Copy, Debug, PartialEq, Eq)]
pub enum Lease {
    /// There is no lease.
    Available,
    /// A lease was acquired. It is expired from its end on.
    Leased {
        /// The id of the lease.
        id: u128,
        /// The duration in seconds, and none for an infinite lease.
        secs: Option<u8>,
        /// The end, in milliseconds since 1970. It is 0 for an infinite lease, and not looked at.
        until: u64,
    },
    /// A lease was broken, and holds until its end. It is broken from its end on.
    Breaking {
        /// The id of the lease.
        id: u128,
        /// The end, in milliseconds since 1970.
        until: u64,
    },
    /// A lease was broken, and holds no more.
    Broken {
        /// The id of the lease.
        id: u128,
    },
}

impl Lease {
    /// The id that is kept, and 0 where there is no lease.
    pub fn kept_id(&self) -> u128
        ensures { result ≡ kept_id self.now }
    {
        match *self {
            Lease::Available => 0,
            Lease::Leased { id, .. } | Lease::Breaking { id, .. } | Lease::Broken { id } => id,
        }
    }

    /// The duration that is kept, in seconds: none of an infinite lease, and none but of an acquired one.
    pub fn kept_secs(&self) -> Option<u8>
        ensures { result ≡ kept_secs self.now }
    {
        match *self {
            Lease::Leased { secs, .. } => secs,
            Lease::Available | Lease::Breaking { .. } | Lease::Broken { .. } => None,
        }
    }

    /// The end that is kept, in milliseconds since 1970, and 0 where none is.
    pub fn kept_end(&self) -> u64
        ensures { result ≡ kept_end self.now }
    {
        match *self {
            Lease::Leased { until, .. } | Lease::Breaking { until, .. } => until,
            Lease::Available | Lease::Broken { .. } => 0,
        }
    }
}

/// The state of a lease at a moment.
#[derive(Clone, Copy, Debug, PartialEq, Eq)]
pub enum State {
    /// There is no lease.
    Available,
    /// The lease holds.
    Leased,
    /// The lease has come to its end.
    Expired,
    /// The lease was broken, and still holds.
    Breaking,
    /// The lease was broken, and holds no more.
    Broken,
}

/// An action of a caller on a lease.
#[derive(Clone, Copy, Debug, PartialEq, Eq)]
pub enum LeaseAction {
    /// Takes a lease.
    Acquire {
        /// The id that the lease is to have.
        proposed: u128,
        /// The duration in seconds, and none for an infinite lease.
        secs: Option<u8>,
    },
    /// Lets a lease begin anew, with the duration that it has.
    Renew {
        /// The id that the caller gives for the lease.
        given: u128,
    },
    /// Gives a lease another id.
    Change {
        /// The id that the caller gives for the lease.
        given: u128,
        /// The id that the lease is to have.
        proposed: u128,
    },
    /// Gives a lease back.
    Release {
        /// The id that the caller gives for the lease.
        given: u128,
    },
    /// Ends a lease, at once or after a period.
    Break {
        /// The period in seconds, where one is asked for.
        period: Option<u8>,
    },
}

/// What an append does with the lease of its file.
#[derive(Clone, Copy, Debug, PartialEq, Eq)]
pub enum AppendLease {
    /// Nothing but what each write does.
    Plain,
    /// Takes a lease, which the caller keeps.
    Acquire {
        /// The id that the lease is to have.
        proposed: u128,
        /// The duration in seconds, and none for an infinite lease.
        secs: Option<u8>,
    },
    /// Writes under the id that the caller gives, and lets the lease begin anew.
    AutoRenew,
    /// Writes under the id that the caller gives, and gives the lease back.
    Release,
    /// Takes a lease for this append alone, and leaves none.
    AcquireRelease {
        /// The id that the lease is to have.
        proposed: u128,
        /// The duration in seconds, and none for an infinite lease.
        secs: Option<u8>,
    },
}

/// Why an action on a lease, or a write under it, is refused.
#[derive(Clone, Copy, Debug, PartialEq, Eq, Error)]
pub enum LeaseFault {
    /// A write without an id, while the lease holds.
    #[error("There is an active lease and no lease id was given.")]
    LeaseIdMissing,
    /// A write with another id than the lease has, while it holds.
    #[error("The lease id does not match.")]
    LeaseIdMismatchWithBlobOperation,
    /// A write with an id, where no lease holds.
    #[error("There is no active lease.")]
    LeaseLost,
    /// An acquire with another id than the lease has, while it holds.
    #[error("There is already a lease.")]
    LeaseAlreadyPresent,
    /// A renewal or a release with another id than the lease has, or a change of a lease that holds: of a leased one
    /// where neither id is its id, of a breaking one where the given id isn't.
    #[error("The lease id does not match.")]
    LeaseIdMismatchWithLeaseOperation,
    /// A renewal, a change, a release or a break where there is no lease, or a change where it holds no more.
    #[error("There is no lease.")]
    LeaseNotPresentWithLeaseOperation,
    /// An acquire with the id of the lease while it is breaking.
    #[error("The lease is breaking.")]
    LeaseIsBreakingAndCannotBeAcquired,
    /// A change with the id of the lease while it is breaking.
    #[error("The lease is breaking.")]
    LeaseIsBreakingAndCannotBeChanged,
    /// A renewal with the id of the lease while it is breaking, or when it is broken.
    #[error("The lease is broken.")]
    LeaseIsBrokenAndCannotBeRenewed,
}
