//! A service with its passes.
ghost use Rattle.std.specs.Prelude.{◌≡◌, []};
ghost use Rattle.commit_journal.specs.Keeper.{AreKept};

use super::calls::{Call, Stop, Told, ask};
use commit_journal::{Keeper, Limits};
use conn_io::{Clock, FixedClock};
use inode_tree::Placed;
use parted_namespace::Namespace;
use service_workers::Service;
use std::alloc::Global;
use std::marker::Model;
use std::sync::Wait;
use std::test::Fail;
use striped_store::{Closing, Pass};

/// A service and all its passes, in the order of their numbers, each of which holds nothing.
#[derive(Drop)]
pub(super) struct Team<K: Keeper<Placed>> {
    pub(super) service: Service<K>,
    pub(super) passes: Vec<Pass<Namespace, K>>,
}

impl<K: Keeper<Placed>> Model for Team<K> {
    ghost use Rattle.service_tests.specs.Teams.{IsTeam};

    ghost Value = { Unit {0} };

    ghost view = { λ _. tt };

    ghost invariant = { λ t. IsTeam t.service t.passes.items };
}

impl<K: Keeper<Placed>> Team<K> {
    /// A service of so many passes, with a journal of at most so many entries and bytes.
    pub(super) fn open(
        alloc: Global,
        passes: u32,
        entries: u64,
        bytes: u64,
        keeper: K,
    ) -> Result<Team<K>, Fail>
        requires kept { AreKept (K.tells keeper).kept [] }
    {
        let limits = Limits::new(passes, entries, bytes, 1).ok_or("no limits")?;
        let (service, passes) = Service::start(alloc, &limits, keeper)?;
        Ok(Team { service, passes })
    }

    /// Asks by the pass of this number, at the moment 0.
    pub(super) fn ask<R: Wait>(&mut self, rt: &R, by: usize, call: &Call) -> Result<Told, Stop> {
        let mut clock = FixedClock(0);
        self.ask_by_clock(rt, by, &mut clock, call)
    }

    /// Asks by the pass of this number, with this clock.
    pub(super) fn ask_by_clock<R: Wait, C: Clock>(
        &mut self,
        rt: &R,
        by: usize,
        clock: &mut C,
        call: &Call,
    ) -> Result<Told, Stop> {
        match self.passes.get_mut(by) {
            Some(pass) => ask(rt, &self.service, pass, clock, call),
            None => Err(Stop::NoPass),
        }
    }

    /// How wide the last commit of the pass of this number was.
    pub(super) fn wide(&self, by: usize) -> Option<u32> {
        match self.passes.get(by) {
            Some(pass) => Some(pass.wide()),
            None => None,
        }
    }

    /// Closes the service.
    pub(super) fn close(self) -> Closing<Namespace, K> {
        let Team { service, passes } = self;
        service.close(passes)
    }
}
