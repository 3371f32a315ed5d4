ghost use Rattle.std.specs.Prelude.{◌<◌, ◌≤◌, All, length};
ghost use Rattle.lease_state.specs.declared.lease.TheConstants.{LAST_MOMENT};

use super::outside::Clock;
use lease_state::LAST_MOMENT;

/// A clock that stands still, at this many milliseconds since 1970, or at the last moment where that is less.
#[derive(Clone, Copy, Debug, PartialEq, Eq)]
pub struct FixedClock(pub u64);

impl Clock for FixedClock {
    ghost use Rattle.std.specs.Prelude.{Some, min};
    ghost use Rattle.lease_state.specs.declared.lease.TheConstants.{LAST_MOMENT};

    ghost ahead = { λ c. Some (λ k. min c.0 LAST_MOMENT) };

    fn now(&mut self) -> u64 {
        self.0.min(LAST_MOMENT)
    }
}

/// A clock that answers the moments of a list one after the other, and the last one again and again.
#[derive(Drop)]
pub struct ListClock {
    moments: Vec<u64>,
    next: usize,
    ghost there: { next < length moments.items },
    ghost in_range: { ∥ All (λ moment. moment ≤ LAST_MOMENT) moments.items ∥₁ },
}

impl ListClock {
    ghost use Rattle.std.specs.Prelude.{◌≡◌, ℕ, ◌<◌, ◌≤◌, ◌-◌, All, min, slice_index, vec_len};
    ghost use Rattle.lease_state.specs.declared.lease.TheConstants.{LAST_MOMENT};
    ghost use Rattle.conn_io.specs.Memory.{moments_ahead};

    /// A clock over these moments, in milliseconds since 1970.
    pub fn new(moments: Vec<u64>) -> ListClock
        requires some { 0 < vec_len moments }
        requires in_range { All (λ moment. moment ≤ LAST_MOMENT) moments.items }
        ensures { (k : ℕ) → moments_ahead result k ≡ slice_index moments.items (min k (vec_len moments - 1)) }
    {
        ListClock { moments, next: 0 }
    }
}

impl Clock for ListClock {
    ghost use Rattle.std.specs.Prelude.{Some};
    ghost use Rattle.conn_io.specs.Memory.{moments_ahead};

    ghost ahead = { λ c. Some (moments_ahead c) };

    fn now(&mut self) -> u64 {
        let moment = self.moments[self.next];
        if self.next + 1 < self.moments.len() {
            self.next += 1;
        }
        moment
    }
}
