ghost use Rattle.std.specs.Prelude.{◌≡◌, ◌<◌, ◌≤◌, Some, slice_get, slice_set, length};
ghost use Rattle.lock_core.specs.declared.object.LockMode.TheVariants as mode;
ghost use Rattle.path_locks.specs.Plans.{no_plan, width, wide_of};

use lock_core::LockMode;
use std::marker::Model;

/// How each of the 64 stripes is to be held. A contract sees the 64 modes.
#[derive(Clone, Copy, Debug, PartialEq, Eq)]
pub struct Plan {
    modes: [LockMode; 64],
}

impl Model for Plan {
    ghost use Rattle.std.specs.Prelude.{◌≡◌, List, length};
    ghost use Rattle.lock_core.specs.declared.object.LockMode.{LockMode};

    ghost Value = { List LockMode };

    ghost view = { λ p. p.modes };

    ghost invariant = { λ p. length p.modes ≡ 64 };

    ghost inverse = { λ modes. record { modes = modes } };
}

impl Plan {
    /// A plan that holds no stripe.
    pub fn none() -> Plan
        ensures { result ≡ no_plan }
    {
        Plan {
            modes: [LockMode::None; 64],
        }
    }

    /// How the stripe is to be held.
    pub fn mode(&self, stripe: u8) -> LockMode
        requires { stripe < 64 }
        ensures { slice_get self.now stripe ≡ Some result }
    {
        self.modes[stripe as usize]
    }

    /// Holds the stripe in this mode instead.
    pub fn set(&mut self, stripe: u8, mode: LockMode)
        requires { stripe < 64 }
        ensures { self.new ≡ slice_set self.old stripe mode }
    {
        self.modes[stripe as usize] = mode;
    }

    /// The same plan, with the stripe held shared.
    pub(crate) fn shared_at(&self, stripe: u8) -> Plan
        requires { stripe < 64 }
        ensures value { result ≡ slice_set self.now stripe mode.Shared }
        ensures whole { length self.now ≡ 64 }
    {
        let mut plan = *self;
        plan.modes[stripe as usize] = LockMode::Shared;
        plan
    }

    /// How wide the plan is: the number of stripes held shared, and twice that of those held exclusively.
    pub(crate) fn wide(&self) -> u32
        ensures { result ≡ wide_of self.now }
    {
        let mut wide = 0;
        for mode in &self.modes {
            wide += width(*mode);
        }
        wide
    }
}

/// What a stripe in this mode adds to how wide a plan is.
pub(crate) fn width(mode: LockMode) -> u32
    ensures value { result ≡ width mode }
    ensures few { result ≤ 2 }
{
    match mode {
        LockMode::None => 0,
        LockMode::Shared => 1,
        LockMode::Exclusive => 2,
    }
}
